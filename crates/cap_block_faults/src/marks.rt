// Marks: what is wrong at each token of a node.
ghost use Rattle.std.specs.Prelude.{◌≡◌, ◌++◌, ◌∷◌, [], OnOk, option_map, slice_get};
ghost use Rattle.cap_block_faults.specs.Marks.{told, separator, fault_at, faults, first};

use cap_grammar::Place;
use cap_names::{BadScript, Reason};
use std::alloc::AllocError;

/// The reason that is told at a token, if something is wrong there.
pub type Mark = Option<Reason>;

/// The reason, where this holds.
pub fn told(wrong: bool, reason: Reason) -> Mark
    ensures { result ≡ told wrong reason }
{
    if wrong { Some(reason) } else { None }
}

/// Puts a mark behind the others.
pub fn put(marks: &mut Vec<Mark>, mark: Mark) -> Result<(), AllocError>
    ensures { OnOk result (marks.new.items ≡ marks.old.items ++ mark ∷ []) }
{
    marks.push(mark)?;
    Ok(())
}

/// Puts the mark of the separator before an item, which the first item has not.
pub fn put_separator(marks: &mut Vec<Mark>, before: usize, mark: Mark) -> Result<(), AllocError>
    ensures { OnOk result (marks.new.items ≡ marks.old.items ++ separator before mark) }
{
    if before > 0 {
        marks.push(mark)?;
    }
    Ok(())
}

fn fault_at(places: &[Place], place: usize, reason: Reason) -> Option<BadScript>
    ensures { result ≡ option_map (λ p. fault_at p reason) (slice_get places.now place) }
{
    match places.get(place) {
        Some(place) => Some(BadScript {
            line: place.line,
            column: place.column,
            reason,
        }),
        None => None,
    }
}

/// The first fault of a node: the marks of its tokens at their places.
pub fn first_fault(places: &[Place], marks: &[Mark]) -> Option<BadScript>
    ensures { result ≡ first (faults places.now marks.now) }
{
    'tokens: for (i, mark) in marks.iter().enumerate() {
        if let Some(reason) = mark {
            return fault_at(places, i, *reason);
        }
    }
    None
}
