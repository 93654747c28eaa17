// How often a body calls an operation.
ghost use Rattle.std.specs.Prelude.{◌≡◌, ◌<◌, ◌^◌, length};
ghost use Rattle.cap_terms.specs.Rules.{occurrences};

use crate::body::{Body, Step};
use cap_names::OpId;

/// The number of steps of a body that call an operation.
pub fn multiplicity(body: &Body, op: OpId) -> u32
    requires { length body.now.steps < 2 ^ 32 }
    ensures { result ≡ occurrences op.0 body.now.steps }
{
    let mut count = 0;
    for step in body.steps.as_slice() {
        match step {
            Step::Call { op: called, .. } if called.0 == op.0 => count += 1,
            _ => {}
        }
    }
    count
}
