// The objects that a seat was told.
ghost use Rattle.std.specs.Prelude.{◌≡◌};
ghost use Rattle.std.specs.Option.{option_copied};
ghost use Rattle.std.specs.List.{flat_map};
ghost use Rattle.cap_seat.specs.Seats.{told_among};

use cap_names::{Handle, Items};

/// The object that was told of a handle among these, if one was.
fn object_in<O>(told: &[(Handle, O)], h: Handle) -> Option<&O>
    ensures { option_copied result ≡ told_among told.now h }
{
    for i in 0..told.len() {
        if told[i].0 == h {
            return Some(&told[i].1);
        }
    }
    None
}

/// The object that was told of a handle among all of these, if one was.
pub(crate) fn object_among<O>(known: &[Items<(Handle, O)>], h: Handle) -> Option<&O>
    ensures { option_copied result ≡ told_among (flat_map (λ told. told) known.now) h }
{
    for i in 0..known.len() {
        if let Some(object) = object_in(known[i].as_slice(), h) {
            return Some(object);
        }
    }
    None
}
