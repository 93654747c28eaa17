// Least weights, by walks over the rules until none lowers a bound.
ghost use Rattle.std.specs.Prelude.{◌≡◌, ℕ, ◌*◌, ◌<◌, ◌≤◌, length, slice_index, if◌then◌else◌};
ghost use Rattle.std.specs.List.{All};
ghost use Rattle.cap_ops.specs.Derivations.{weight_by, charge, is_allowed, IsCost, IsWeight, means, ArePlannable, IsLeast};
ghost use Rattle.cap_plan.specs.Rounds.{IsFirst, IsRound, lowers, lowered};

use cap_ops::{Kind, NO_PLAN, OPERATIONS, Regs, RuleCost};

/// The sum over all operations of the count times the bound.
#[tactic(auto, using(crate::proofs::Sums::product_small, cap_ops::proofs::DerivationsCharge::charge_more, cap_ops::proofs::DerivationsCharge::charge_done))]
fn sum_of_calls(calls: &[u8; 44], bounds: &[u64; 44]) -> u64
    requires { All (λ b. b ≤ NO_PLAN) bounds.now }
    ensures value { result ≡ charge calls.now bounds.now }
    ensures small { result ≤ 44 * 255 * NO_PLAN }
{
    let mut sum: u64 = 0;
    for op in 0..44 {
        sum += calls[op] as u64 * bounds[op];
    }
    sum
}

/// What the rule weighs where each operation weighs its bound.
pub fn weight_of(rule: &RuleCost, bounds: &[u64; 44]) -> u64
    requires { All (λ b. b ≤ NO_PLAN) bounds.now }
    ensures { result ≡ weight_by bounds.now rule.now }
{
    rule.own as u64 + sum_of_calls(&rule.calls, bounds)
}

/// The bounds by the registered weights alone.
fn first_bounds(regs: &Regs) -> [u64; 44]
    requires { All IsWeight regs.now.weights }
    ensures long { length result ≡ OPERATIONS }
    ensures first { IsFirst regs.now.weights result }
{
    let mut bounds = [NO_PLAN; 44];
    for op in 0..44 {
        if let Some(weight) = regs.weights[op] {
            bounds[op] = weight as u64;
        }
    }
    bounds
}

/// Tells whether the rule may be used in a category of this kind.
pub fn is_allowed(kind: Kind, rule: &RuleCost) -> bool
    ensures { result ≡ is_allowed kind rule.now }
{
    !rule.abelian || !matches!(kind, Kind::Add)
}

/// Lowers the bound of the rule's head to what the rule weighs, and tells whether it was above.
fn relax(bounds: &mut [u64; 44], rule: &RuleCost, kind: Kind) -> bool
    requires capped { All (λ b. b ≤ NO_PLAN) bounds.old }
    requires cost { IsCost rule.now }
    ensures yes { result ≡ lowers kind bounds.old rule.now }
    ensures new { bounds.new ≡ (if result then lowered bounds.old rule.now else bounds.old) }
{
    let head = rule.head.0 as usize - 1;
    let weight = weight_of(rule, bounds);
    if is_allowed(kind, rule) && weight < bounds[head] {
        bounds[head] = weight;
        true
    } else {
        false
    }
}

/// Walks once over the rules, and tells whether a bound was lowered.
fn round(bounds: &mut [u64; 44], rules: &[RuleCost], kind: Kind) -> bool
    requires capped { All (λ b. b ≤ NO_PLAN) bounds.old }
    requires costs { All IsCost rules.now }
    ensures { IsRound kind rules.now bounds.old bounds.new result }
{
    let mut changed = false;
    for rule in rules {
        if relax(bounds, rule, kind) {
            changed = true;
        }
    }
    changed
}

/// The least weights, by walks over the rules until none lowers a bound.
pub fn least_bounds(regs: &Regs, costs: &[RuleCost], kind: Kind) -> [u64; 44]
    requires { ArePlannable regs.now.weights costs.now }
    ensures long { length result ≡ OPERATIONS }
    ensures capped { All (λ b. b ≤ NO_PLAN) result }
    ensures least { (op : ℕ) → op < OPERATIONS → IsLeast (means regs.now costs.now kind) op (slice_index result op) }
{
    let mut bounds = first_bounds(regs);
    let mut changed = true;
    while changed {
        changed = round(&mut bounds, costs, kind);
    }
    bounds
}
