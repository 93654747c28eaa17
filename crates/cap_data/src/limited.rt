// Lists with a limit.
ghost use Rattle.std.specs.Prelude.{◌≡◌, ◌≤◌, length};

use cap_names::Items;
use std::marker::Model;

/// A list of at most `MOST` elements. Contracts see it as its elements.
#[derive(Drop)]
pub struct Limited<T, const MOST: usize> {
    items: Items<T>,
}

impl<T, const MOST: usize> Model for Limited<T, MOST> {
    ghost use Rattle.std.specs.Prelude.{◌≤◌, List, length};

    ghost Value = { List T };

    ghost view = { λ l. l.items };

    ghost invariant = { λ l. length l.items ≤ MOST };
}

impl<T, const MOST: usize> Limited<T, MOST> {
    /// The list of these elements.
    pub fn new(items: Items<T>) -> Limited<T, MOST>
        requires { length items ≤ MOST }
        ensures { result ≡ items }
    {
        Limited { items }
    }

    /// The elements, in order.
    pub fn as_slice(&self) -> &[T]
        ensures value { result.now ≡ self.now }
        ensures few { length result.now ≤ MOST }
    {
        self.items.as_slice()
    }

    /// The elements as a list without a limit.
    pub fn into_items(self) -> Items<T>
        ensures value { result ≡ self }
        ensures few { length result ≤ MOST }
    {
        let Limited { items } = self;
        items
    }
}
