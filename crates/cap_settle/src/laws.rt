// The laws of settled values, each a call that does nothing.
ghost use Rattle.cap_settle.specs.Laws.{SettledTells, SettledValue, SettledFits};

use cap_ops::Datum;

/// A settled value has the answer's data.
pub fn law_settled_tells<O: Datum, M: Datum>()
    ensures { SettledTells O M }
{}

/// It is the answer with handles for its ends.
pub fn law_settled_value<M: Datum>()
    ensures { SettledValue M }
{}

/// It fits as the answer did.
pub fn law_settled_fits<M: Datum>()
    ensures { SettledFits M }
{}
