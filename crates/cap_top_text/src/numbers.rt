// The printed numbers of objects.
ghost use Rattle.std.specs.Prelude.{◌≡◌, OnOk, position, length};
ghost use Rattle.cap_top_text.specs.Numbers.{is_object, of_category, has_seen, with_seen, number_of};

use cap_names::{Handle, Items, NoMemory};
use std::alloc::Global;

/// Whether an object of this category has appeared.
pub fn has_seen(seen: &[(usize, Handle)], category: usize, object: Handle) -> bool
    ensures { result ≡ has_seen seen.now category object }
{
    seen.iter()
        .filter(|x| x.0 == category)
        .any(|x| x.1 == object)
}

/// The place of an object among those of its category that have appeared.
fn place_of(seen: &[(usize, Handle)], category: usize, object: Handle) -> Option<usize>
    ensures { result ≡ position (is_object object) (of_category category seen.now) }
{
    seen.iter()
        .filter(|x| x.0 == category)
        .position(|x| x.1 == object)
}

/// How many objects of a category have appeared.
fn count_of(seen: &[(usize, Handle)], category: usize) -> usize
    ensures { result ≡ length (of_category category seen.now) }
{
    seen.iter().filter(|x| x.0 == category).count()
}

#[tactic(auto, using(cap_checked::proofs::Places::place_some, cap_checked::proofs::Places::place_none))]
/// The printed number of an object, from 1.
pub fn number_of(seen: &[(usize, Handle)], category: usize, object: Handle) -> u64
    ensures { result ≡ number_of seen.now category object }
{
    match place_of(seen, category, object) {
        Some(place) => place as u64 + 1,
        None => count_of(seen, category) as u64 + 1,
    }
}

/// An object of a category appears.
pub fn see(
    seen: &mut Items<(usize, Handle)>,
    category: usize,
    object: Handle,
) -> Result<(), NoMemory>
    ensures { OnOk result (seen.new ≡ with_seen seen.old category object) }
{
    if !has_seen(seen.as_slice(), category, object) {
        seen.push((category, object))?;
    }
    Ok(())
}
