// What a rule weighs by printed bounds.
ghost use Rattle.std.specs.Prelude.{◌≡◌, ◌*◌, ◌≤◌};
ghost use Rattle.std.specs.List.{All};
ghost use Rattle.cap_ops.specs.Derivations.{weight_by, charge};

use cap_ops::{NO_PLAN, RuleCost};

/// What the calls weigh by the printed bounds.
#[tactic(auto, using(crate::proofs::Products::product_within, cap_ops::proofs::DerivationsCharge::charge_more, cap_ops::proofs::DerivationsCharge::charge_done))]
fn called_weight(calls: &[u8; 44], printed: &[u64; 44]) -> u64
    requires { All (λ b. b ≤ NO_PLAN) printed.now }
    ensures value { result ≡ charge calls.now printed.now }
    ensures small { result ≤ 44 * 255 * NO_PLAN }
{
    let mut weight: u64 = 0;
    'places: for place in 0..44 {
        weight += printed[place] * calls[place] as u64;
    }
    weight
}

/// What the rule weighs by the printed bounds.
pub fn printed_weight(rule: &RuleCost, printed: &[u64; 44]) -> u64
    requires { All (λ b. b ≤ NO_PLAN) printed.now }
    ensures { result ≡ weight_by printed.now rule.now }
{
    called_weight(&rule.calls, printed) + rule.own as u64
}
