// The check of certificates, line by line.
ghost use Rattle.std.specs.Prelude.{◌≡◌, ◌<◌, ◌≤◌, length, IfSome, IfNone, count_by, is_some};
ghost use Rattle.std.specs.List.{All};
ghost use Rattle.cap_ops.specs.Derivations.{IsCost};
ghost use Rattle.cap_cert.specs.Lines.{IsRead, AllHold, IsFirstFalse, IsVerdict, AreTrueWhereYes};

use super::certs::{Cert, Verdict};
use super::lines::line_holds;
use cap_ops::{Choice, OPERATIONS, Regs, RuleCost};

/// An array has all its elements.
fn all_bounds(bounds: &[u64; 44])
    ensures { length bounds.now ≡ OPERATIONS }
{}

/// An array has all its elements.
fn all_choices(choices: &[Choice; 44])
    ensures { length choices.now ≡ OPERATIONS }
{}

/// An array has all its elements.
fn all_weights(weights: &[Option<u32>; 44])
    ensures { length weights.now ≡ OPERATIONS }
{}

/// How many operations are registered.
fn registered(regs: &Regs) -> u32
    ensures count { result ≡ count_by is_some regs.now.weights }
    ensures few { result ≤ 44 }
{
    all_weights(&regs.weights);
    let mut count = 0;
    'places: for place in 0..44 {
        if regs.weights[place].is_some() {
            count += 1;
        }
    }
    count
}

/// The first operation whose line is false.
fn first_false(cert: &Cert, costs: &[RuleCost]) -> Option<usize>
    requires cert { IsRead cert.now }
    requires costs { All IsCost costs.now }
    ensures none { IfNone result (AllHold costs.now cert.now) }
    ensures some { IfSome result (λ place. IsFirstFalse costs.now cert.now place) }
    ensures long { length cert.now.plan.bounds ≡ OPERATIONS }
    ensures choices { length cert.now.plan.choices ≡ OPERATIONS }
{
    all_bounds(&cert.plan.bounds);
    all_choices(&cert.plan.choices);
    'places: for place in 0..44 {
        if !line_holds(cert, costs, place) {
            return Some(place);
        }
    }
    None
}

/// Yes exactly where no line is false, and then each certificate is true; else No with the number of the first false line.
pub fn verify(certs: &[Cert], costs: &[RuleCost]) -> Verdict
    requires certs { All IsRead certs.now }
    requires costs { All IsCost costs.now }
    ensures exact { IsVerdict costs.now certs.now result }
    ensures truth { AreTrueWhereYes costs.now certs.now result }
{
    'certs: for cert in certs {
        if let Some(place) = first_false(cert, costs) {
            return Verdict::No {
                line: cert.first_line + 1 + registered(&cert.regs) + place as u32,
            };
        }
    }
    Verdict::Yes
}
