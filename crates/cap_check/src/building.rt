// What is not built yet.
ghost use Rattle.std.specs.Prelude.{◌≡◌, [], Some, MatchResult};
ghost use Rattle.cap_block_faults.specs.Marks.{first};
ghost use Rattle.cap_check.specs.Unbuilt.{unbuilt_kind, unbuilt_token, place_of, unbuilt_part, unbuilt};

use crate::checked::Checked;
use cap_checked::CheckedObj;
use cap_grammar::{Item, Over, Place, Placed};
use cap_names::{BadScript, MorLit, Reason};

fn unbuilt_kind(over: Over) -> Option<usize>
    ensures { result ≡ unbuilt_kind over }
{
    match over {
        Over::Vec(_) => None,
        Over::Add(_) | Over::Freyd(_) | Over::Rep(_) => Some(2),
    }
}

fn unbuilt_token(item: &Item<CheckedObj, MorLit>) -> Option<usize>
    ensures { result ≡ unbuilt_token item.now }
{
    match item {
        Item::Block(_) => Some(0),
        Item::Category { over, .. } => unbuilt_kind(*over),
        Item::Command(_) => None,
    }
}

fn place_of(places: &[Place], token: usize) -> Place
    ensures { result ≡ place_of places.now token }
{
    match places.get(token) {
        Some(place) => *place,
        None => Place { line: 1, column: 1 },
    }
}

fn unbuilt_part(part: &Placed<Item<CheckedObj, MorLit>>) -> Option<BadScript>
    ensures { result ≡ unbuilt_part part.now }
{
    match unbuilt_token(&part.node) {
        Some(token) => {
            let place = place_of(part.places.as_slice(), token);
            Some(BadScript {
                line: place.line,
                column: place.column,
                reason: Reason::Limit,
            })
        }
        None => None,
    }
}

fn parts_built(parts: &[Placed<Item<CheckedObj, MorLit>>]) -> Result<(), BadScript>
    ensures { MatchResult result (λ _. unbuilt parts.now ≡ []) (λ fault. first (unbuilt parts.now) ≡ Some fault) }
{
    'parts: for part in parts {
        if let Some(fault) = unbuilt_part(part) {
            return Err(fault);
        }
    }
    Ok(())
}

/// Whether all of a script is built; else the first block or category that is not.
pub fn built(script: &Checked) -> Result<(), BadScript>
    ensures { MatchResult result (λ _. unbuilt script.now.prelude ≡ []) (λ fault. first (unbuilt script.now.prelude) ≡ Some fault) }
{
    parts_built(script.prelude())
}
