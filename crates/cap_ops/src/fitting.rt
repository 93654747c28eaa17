// Which ends of arguments must be one object.
ghost use Rattle.std.specs.Prelude.{◌≡◌, ◌↔◌, ◌+◌, ◌<◌, ◌≤◌, ℕ, List, ◌∷◌, ◌++◌, length, IsOk, IfErr, MatchResult, Some, None};
ghost use Rattle.cap_ops.specs.declared.ends.Shape.{Shape};
ghost use Rattle.cap_ops.specs.Arrows.{over, arguments};
ghost use Rattle.cap_ops.specs.Mismatches.{HaveSorts, IsMismatch, Place, place as place_at, argument_places, places_of};
ghost use Rattle.cap_ops.specs.Scan.{scan, no_handles, wanted_places};
ghost use Rattle.cap_ops.specs.Values.{Fits};

use crate::ends::{Shape, operation_ends};
use crate::keys::Arg;
use cap_names::{Handle, OpId};
use thiserror::Error;

/// Two ends that must be one object have different handles: the place of the second, from 1, the handle that is
/// needed there, and the one that is found. Places count the objects and the ends of the arguments in the order
/// written, a source before its target; the first end with a letter fixes the handle.
#[derive(Debug, Clone, Copy, PartialEq, Eq, Error)]
#[error("the end at place {place} has another object than needed")]
pub struct Mismatch {
    pub place: u32,
    pub left: Handle,
    pub right: Handle,
}

/// The handles of the letters that were met, and the number of ends that were met.
#[derive(Clone, Copy)]
struct Seen {
    handles: [Option<Handle>; 5],
    place: u32,
}

fn meet(mut seen: Seen, letter: u8, handle: Handle) -> Result<Seen, Mismatch>
    requires few { seen.place < 1000 }
    ensures next { MatchResult result (λ s. s.place ≡ seen.place + 1) (λ _. Unit {0}) }
    ensures scans { (rest : List Place) → MatchResult result (λ s. scan (place_at letter handle ∷ rest) seen.handles seen.place ≡ scan rest s.handles s.place) (λ m. scan (place_at letter handle ∷ rest) seen.handles seen.place ≡ Some m) }
{
    seen.place += 1;
    let index = usize::from(letter);
    if index >= 5 {
        return Ok(seen);
    }
    let known = seen.handles[index];
    match known {
        None => {
            seen.handles[index] = Some(handle);
            Ok(seen)
        }
        Some(first) => {
            if first.0 == handle.0 {
                Ok(seen)
            } else {
                Err(Mismatch {
                    place: seen.place,
                    left: first,
                    right: handle,
                })
            }
        }
    }
}

fn meet_argument<M>(seen: Seen, wanted: Shape<u8>, arg: &Arg<M>) -> Result<Seen, Mismatch>
    requires few { seen.place < 900 }
    ensures next { MatchResult result (λ s. s.place ≤ seen.place + 2) (λ _. Unit {0}) }
    ensures scans { (rest : List Place) → MatchResult result (λ s. scan (argument_places wanted arg.now ++ rest) seen.handles seen.place ≡ scan rest s.handles s.place) (λ m. scan (argument_places wanted arg.now ++ rest) seen.handles seen.place ≡ Some m) }
{
    match (wanted, arg) {
        (Shape::Object(letter), Arg::Obj(handle)) => meet(seen, letter, *handle),
        (Shape::Morphism(ends), Arg::Mor(arrow)) => match meet(seen, ends.src, arrow.src) {
            Ok(middle) => meet(middle, ends.tgt, arrow.tgt),
            Err(mismatch) => Err(mismatch),
        },
        _ => Ok(seen),
    }
}

fn meet_wanted<M>(seen: Seen, wanted: Option<Shape<u8>>, arg: &Arg<M>) -> Result<Seen, Mismatch>
    requires few { seen.place < 900 }
    ensures next { MatchResult result (λ s. s.place ≤ seen.place + 2) (λ _. Unit {0}) }
    ensures scans { (rest : List Place) → MatchResult result (λ s. scan (wanted_places wanted arg.now ++ rest) seen.handles seen.place ≡ scan rest s.handles s.place) (λ m. scan (wanted_places wanted arg.now ++ rest) seen.handles seen.place ≡ Some m) }
{
    match wanted {
        None => Ok(seen),
        Some(shape) => meet_argument(seen, shape, arg),
    }
}

fn scan_arguments<M>(op: OpId, args: &[Arg<M>]) -> Result<(), Mismatch>
    requires { HaveSorts op.0 args.now }
    ensures { MatchResult result (λ _. scan (places_of op.0 args.now) no_handles 0 ≡ None) (λ m. scan (places_of op.0 args.now) no_handles 0 ≡ Some m) }
{
    let wanted = operation_ends(op).args;
    let mut seen = Seen {
        handles: [None; 5],
        place: 0,
    };
    for (i, arg) in args.iter().enumerate() {
        match meet_wanted(seen, wanted[i], arg) {
            Ok(next) => seen = next,
            Err(mismatch) => return Err(mismatch),
        }
    }
    Ok(())
}

/// Whether ends that must be one object have one handle. The arguments have the operation's sorts.
pub fn ends_fit<M>(op: OpId, args: &[Arg<M>]) -> Result<(), Mismatch>
    requires { HaveSorts op.0 args.now }
    ensures fits { (p : ℕ) → IsOk result ↔ Fits (over p) op.0 (arguments args.now) }
    ensures wrong { IfErr result (λ m. IsMismatch op.0 args.now m) }
{
    scan_arguments(op, args)
}
