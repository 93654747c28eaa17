// The default weights of primitives.
ghost use Rattle.std.specs.Prelude.{◌≡◌};
ghost use Rattle.cap_ops.specs.Offered.{offered_weight};

use cap_names::OpId;
use cap_ops::{Kind, OPERATIONS, offered};

/// The default weight of an operation's primitive in categories of a kind; None where the kind doesn't offer it.
pub fn default_weight(kind: Kind, op: OpId) -> Option<u32>
    ensures { result ≡ offered_weight kind op.0 }
{
    if op.0 == 0 || op.0 as usize > OPERATIONS {
        return None;
    }
    offered(kind).weights[op.0 as usize - 1]
}
