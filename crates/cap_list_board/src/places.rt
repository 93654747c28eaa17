// Where a key is kept, and a place that was reserved.
ghost use Rattle.std.specs.Prelude.{◌≡◌, ◌∷◌, [], ◌++◌, ◌<◌, MatchOption, vec_len, vec_capacity};
ghost use Rattle.cap_list_board.specs.Lists.{IsEntryAt, IsNew};

use crate::entries::Entry;
use cap_keys::same_key;
use cap_ops::{Datum, Key};

/// The place of the first entry with a key.
pub(crate) fn place_of<M: Datum>(entries: &[Entry<M>], key: &Key<M>) -> Option<usize>
    ensures { MatchOption result (IsNew entries.now key.now) (λ place. IsEntryAt entries.now key.now place) }
{
    for i in 0..entries.len() {
        if same_key(&entries[i].key, key) {
            return Some(i);
        }
    }
    None
}

/// Puts an element behind the others, where room was reserved.
pub(crate) fn push_reserved<T: Drop>(items: &mut Vec<T>, item: T)
    requires { vec_len items.old < vec_capacity items.old }
    ensures { items.new.items ≡ items.old.items ++ item ∷ [] }
{
    match items.push(item) {
        Ok(()) => {}
        Err(_) => unreachable!(),
    }
}
