// One line of a certificate: what its bound and its choice have to be by the printed bounds.
ghost use Rattle.std.specs.Prelude.{◌≡◌, ◌<◌, ◌≤◌, ◌↔◌, IsTrue, ◌&&◌, ◌==◌};
ghost use Rattle.std.specs.List.{All, slice_index_or};
ghost use Rattle.cap_ops.specs.declared.plans.Choice.TheVariants.{Missing};
ghost use Rattle.cap_ops.specs.Derivations.{leads_to, weight_by, IsCost, ways_by_rule, ways, lesser, lightest, first_at, choice_for, LineHolds};
ghost use Rattle.cap_cert.specs.Lines.{IsRead, means_of};

use super::certs::Cert;
use super::sums::printed_weight;
use cap_names::RuleNo;
use cap_ops::{Choice, Kind, NO_PLAN, OPERATIONS, RuleCost};

/// Whether the rule is a way to the operation at this place.
fn leads(rule: &RuleCost, kind: Kind, place: usize) -> bool
    requires { IsCost rule.now }
    ensures { result ≡ leads_to kind place rule.now }
{
    let allowed = match kind {
        Kind::Add => !rule.abelian,
        _ => true,
    };
    rule.head.0 as usize - 1 == place && allowed
}

/// The weight of the lightest of the rules that lead to the operation, and `weight`.
#[tactic(auto, using(cap_ops::proofs::DerivationsSmallest::lightest_at_place, cap_ops::proofs::DerivationsSmallest::lightest_at_end))]
fn lightest_rule(
    weight: u64,
    costs: &[RuleCost],
    kind: Kind,
    printed: &[u64; 44],
    place: usize,
) -> u64
    requires weight { weight ≤ NO_PLAN }
    requires capped { All (λ b. b ≤ NO_PLAN) printed.now }
    requires costs { All IsCost costs.now }
    ensures { result ≡ lesser weight (lightest (ways_by_rule kind printed.now place costs.now)) }
{
    let mut least = weight;
    'rules: for rule in costs {
        if leads(rule, kind, place) {
            least = least.min(printed_weight(rule, printed));
        }
    }
    least
}

/// Whether the rule leads to the operation at this weight.
fn is_way(rule: &RuleCost, kind: Kind, printed: &[u64; 44], place: usize, weight: u64) -> bool
    requires capped { All (λ b. b ≤ NO_PLAN) printed.now }
    requires cost { IsCost rule.now }
    ensures { result ≡ (leads_to kind place rule.now && weight_by printed.now rule.now == weight) }
{
    leads(rule, kind, place) && printed_weight(rule, printed) == weight
}

/// The first of the rules that lead to the operation at this weight.
fn rule_at(costs: &[RuleCost], kind: Kind, printed: &[u64; 44], place: usize, weight: u64) -> Choice
    requires capped { All (λ b. b ≤ NO_PLAN) printed.now }
    requires costs { All IsCost costs.now }
    ensures { result ≡ first_at weight (ways_by_rule kind printed.now place costs.now) }
{
    'rules: for rule in costs {
        if is_way(rule, kind, printed, place, weight) {
            return Choice::Rule(rule.no);
        }
    }
    Choice::Missing
}

/// The weight of the lightest way to the operation by the printed bounds.
#[tactic(auto, using(cap_ops::proofs::DerivationsWays::none_lesser))]
fn bound_by(cert: &Cert, costs: &[RuleCost], place: usize) -> u64
    requires place { place < OPERATIONS }
    requires cert { IsRead cert.now }
    requires costs { All IsCost costs.now }
    ensures { result ≡ lightest (ways (means_of cert.now costs.now) cert.now.plan.bounds place) }
{
    let weight = match cert.regs.weights[place] {
        Some(weight) => weight as u64,
        None => NO_PLAN,
    };
    lightest_rule(weight, costs, cert.kind, &cert.plan.bounds, place)
}

/// The choice for the operation by the printed bounds.
fn choice_by(cert: &Cert, costs: &[RuleCost], place: usize) -> Choice
    requires place { place < OPERATIONS }
    requires cert { IsRead cert.now }
    requires costs { All IsCost costs.now }
    ensures { result ≡ choice_for (means_of cert.now costs.now) cert.now.plan.bounds place }
{
    let bound = cert.plan.bounds[place];
    if bound >= NO_PLAN {
        return Choice::Missing;
    }
    if let Some(weight) = cert.regs.weights[place] {
        if weight as u64 == bound {
            return Choice::Prim;
        }
    }
    rule_at(costs, cert.kind, &cert.plan.bounds, place, bound)
}

/// The choice at a place.
#[tactic(auto, using(std::proofs::lemmas::List::get_or_default))]
fn choice_at(choices: &[Choice; 44], place: usize) -> Choice
    requires { place < OPERATIONS }
    ensures { result ≡ slice_index_or choices.now place Missing }
{
    choices[place]
}

/// Whether two choices are the same.
fn is_same(a: Choice, b: Choice) -> bool
    ensures { IsTrue result ↔ (a ≡ b) }
{
    match (a, b) {
        (Choice::Prim, Choice::Prim) | (Choice::Missing, Choice::Missing) => true,
        (Choice::Rule(RuleNo(m)), Choice::Rule(RuleNo(n))) => m == n,
        _ => false,
    }
}

/// Whether the line of the operation is true.
pub fn line_holds(cert: &Cert, costs: &[RuleCost], place: usize) -> bool
    requires place { place < OPERATIONS }
    requires cert { IsRead cert.now }
    requires costs { All IsCost costs.now }
    ensures { IsTrue result ↔ LineHolds (means_of cert.now costs.now) cert.now.plan place }
{
    cert.plan.bounds[place] == bound_by(cert, costs, place)
        && is_same(
            choice_at(&cert.plan.choices, place),
            choice_by(cert, costs, place),
        )
}
