// The laws of the values that calls answer, each a call that does nothing.
ghost use Rattle.cap_call_laws.specs.Laws.{RulesCanRun, ValuesMean};

use cap_ops::Offer;

/// The 59 rules are rules by which evaluation can run.
pub fn law_rules_can_run()
    ensures { RulesCanRun }
{}

/// In each offered category a value that is the key's value by a plan over the 59 rules has the operation's meaning: kernels are kernels, pullbacks are pullbacks,
/// against every test morphism, and none is answered only where there is none.
pub fn law_values_mean<C: Offer>()
    ensures { (c : C) → ValuesMean (C.offered c) }
{}
