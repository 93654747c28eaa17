//! Nodes with the places of their tokens.

ghost use Rattle.std.specs.Prelude.{◌≡◌, ◌≤◌, length, take, drop, IfOk};

use cap_grammar::{Place, Placed};
use cap_names::Items;
use std::alloc::{AllocError, Global};

/// The node with the first places, as many as count says, and the places behind them.
pub fn place_node<T: Drop>(
    alloc: Global,
    node: T,
    places: &[Place],
    count: usize,
) -> Result<(Placed<T>, &[Place]), AllocError>
    requires { count ≤ length places.now }
    ensures node { IfOk result (λ x. x.0.node ≡ node) }
    ensures places { IfOk result (λ x. x.0.places ≡ take count places.now) }
    ensures rest { IfOk result (λ x. x.1.now ≡ drop count places.now) }
{
    let own = Vec::from_slice(alloc, &places[..count])?;
    Ok((
        Placed {
            node,
            places: Items::new(own),
        },
        &places[count..],
    ))
}
