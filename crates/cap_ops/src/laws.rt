// Laws of new objects and of what values name, each a call that does nothing.
ghost use Rattle.cap_ops.specs.Fresh.{UsedStandAtNew, NamesEachOnce};
ghost use Rattle.cap_ops.specs.declared.keys.Value.{Value as answer};

use crate::primitives::Datum;

/// The new objects of an answer that are used stand at the letters that only the answer has, each at one.
pub fn law_new_objects<O: Datum, M: Datum>()
    ensures { UsedStandAtNew O M }
{}

/// The objects that a value names, taken once each, are those of its ends, and none comes twice.
pub fn law_names_each_once<M: Datum>()
    ensures { (v : answer M) → NamesEachOnce v }
{}
