// The choice for an operation: the first of its ways that weighs its bound.
ghost use Rattle.std.specs.Prelude.{◌≡◌, ◌<◌, ◌≤◌, ◌&&◌, ◌==◌};
ghost use Rattle.std.specs.List.{All};
ghost use Rattle.cap_ops.specs.Derivations.{weight_by, leads_to, IsCost, means, ways_by_rule, first_at, choice_for};

use super::bounds::{is_allowed, weight_of};
use cap_ops::{Choice, Kind, NO_PLAN, OPERATIONS, Regs, RuleCost};

/// Tells whether the rule makes the operation at the weight `bound`.
fn is_way(rule: &RuleCost, kind: Kind, bounds: &[u64; 44], op: usize, bound: u64) -> bool
    requires capped { All (λ b. b ≤ NO_PLAN) bounds.now }
    requires cost { IsCost rule.now }
    ensures { result ≡ (leads_to kind op rule.now && weight_by bounds.now rule.now == bound) }
{
    rule.head.0 as usize - 1 == op && is_allowed(kind, rule) && weight_of(rule, bounds) == bound
}

/// The first rule that makes the operation at the weight `bound`.
fn first_rule(costs: &[RuleCost], kind: Kind, bounds: &[u64; 44], op: usize, bound: u64) -> Choice
    requires capped { All (λ b. b ≤ NO_PLAN) bounds.now }
    requires costs { All IsCost costs.now }
    ensures { result ≡ first_at bound (ways_by_rule kind bounds.now op costs.now) }
{
    for rule in costs {
        if is_way(rule, kind, bounds, op, bound) {
            return Choice::Rule(rule.no);
        }
    }
    Choice::Missing
}

/// The first way to the operation that weighs its bound; Missing where the bound is that of no plan.
pub fn choice_of(
    regs: &Regs,
    costs: &[RuleCost],
    kind: Kind,
    bounds: &[u64; 44],
    op: usize,
) -> Choice
    requires op { op < OPERATIONS }
    requires capped { All (λ b. b ≤ NO_PLAN) bounds.now }
    requires costs { All IsCost costs.now }
    ensures { result ≡ choice_for (means regs.now costs.now kind) bounds.now op }
{
    let bound = bounds[op];
    if bound >= NO_PLAN {
        return Choice::Missing;
    }
    if let Some(weight) = regs.weights[op] {
        if weight as u64 == bound {
            return Choice::Prim;
        }
    }
    first_rule(costs, kind, bounds, op, bound)
}
