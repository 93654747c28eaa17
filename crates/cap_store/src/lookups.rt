// Looking up kept values and names.
ghost use Rattle.std.specs.Prelude.{◌≡◌, ◌↔◌, IsTrue, ◌∷◌, [], ◌++◌, ◌<◌, MatchOption, vec_len, vec_capacity};
ghost use Rattle.cap_store.specs.Lookups.{HasValue, HasNoValue, HasName, HasNoName};

use cap_history::{Keeping, Naming};
use cap_keys::same_key;
use cap_names::{Handle, Name};
use cap_ops::{Datum, Key, Value};

fn is_of<M: Datum>(keeping: &Keeping<M>, key: &Key<M>) -> bool
    ensures { IsTrue result ↔ (keeping.now.key ≡ key.now) }
{
    same_key(&keeping.key, key)
}

/// The kept value of an equal key.
pub(crate) fn kept_in<'a, M: Datum>(cache: &'a [Keeping<M>], key: &Key<M>) -> Option<&'a Value<M>>
    ensures { MatchOption result (HasNoValue cache.now key.now) (λ v. HasValue cache.now key.now v.now) }
{
    for i in 0..cache.len() {
        if is_of(&cache[i], key) {
            return Some(&cache[i].value);
        }
    }
    None
}

/// The handle of a name.
pub(crate) fn named_in(names: &[Naming], name: &Name) -> Option<Handle>
    ensures { MatchOption result (HasNoName names.now name.now) (λ h. HasName names.now name.now h) }
{
    for i in 0..names.len() {
        if names[i].name == *name {
            return Some(names[i].handle);
        }
    }
    None
}

/// Puts an element behind the others, where room was reserved.
pub(crate) fn push_reserved<T: Drop>(items: &mut Vec<T>, item: T)
    requires { vec_len items.old < vec_capacity items.old }
    ensures { items.new.items ≡ items.old.items ++ item ∷ [] }
{
    match items.push(item) {
        Ok(()) => {}
        Err(_) => unreachable!(),
    }
}
