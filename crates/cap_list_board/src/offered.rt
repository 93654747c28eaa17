// Whether registrations are of offered primitives.
ghost use Rattle.std.specs.Prelude.{◌≡◌, ◌↔◌, ◌≤◌, length, IsTrue};
ghost use Rattle.cap_ops.specs.Primitives.{AreOffered};

use cap_names::OpId;
use cap_ops::{Offer, Regs};

/// Whether each operation with a weight is offered.
fn all_offered<C: Offer>(offer: &C, weights: &[Option<u32>]) -> bool
    requires { length weights.now ≤ 44 }
    ensures { IsTrue result ↔ AreOffered (C.offered offer.now) weights.now }
{
    for op in 0..weights.len() {
        if weights[op].is_some() && offer.offers(OpId(op as u8 + 1)).is_none() {
            return false;
        }
    }
    true
}

/// Whether each registered operation is offered.
pub fn are_offered<C: Offer>(offer: &C, regs: &Regs) -> bool
    ensures { IsTrue result ↔ AreOffered (C.offered offer.now) regs.now.weights }
{
    all_offered(offer, &regs.weights)
}
