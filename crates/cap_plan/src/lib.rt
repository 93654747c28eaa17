//! The plan of least weights, by rounds over all rules.
#![tactic(auto)]

mod bounds;
mod choices;

ghost use Rattle.cap_ops.specs.Derivations.{ArePlannable, IsPlan, means};

use bounds::least_bounds;
use cap_ops::{Choice, Kind, Plan, Regs, RuleCost};
use choices::choice_of;

/// The plan of least weights for these registrations, rules and kind. Ties go to the primitive, then to the first rule.
pub fn plan(regs: &Regs, costs: &[RuleCost], kind: Kind) -> Plan
    requires { ArePlannable regs.now.weights costs.now }
    ensures { IsPlan (means regs.now costs.now kind) result }
{
    let bounds = least_bounds(regs, costs, kind);
    let mut choices = [Choice::Missing; 44];
    for op in 0..44 {
        choices[op] = choice_of(regs, costs, kind, &bounds, op);
    }
    Plan { choices, bounds }
}
