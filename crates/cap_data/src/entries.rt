// The coefficients of morphisms of lists.
ghost use Rattle.std.specs.Prelude.{◌≡◌, ◌≤◌, ℕ, List, length};
ghost use Rattle.cap_data.specs.Cells.{coefficients};

use cap_names::Items;
use std::marker::Model;

/// The entries of a morphism of lists, row by row, each by its coefficients: at most 2,048 by 2,048 entries, and 1,048,576 coefficients together. Contracts see them as a list of lists.
#[derive(Drop)]
pub struct Entries {
    lists: Items<Items<u16>>,
}

impl Model for Entries {
    ghost use Rattle.std.specs.Prelude.{◌≤◌, ℕ, List, length};
    ghost use Rattle.cap_data.specs.Cells.{coefficients};

    ghost Value = { List (List ℕ) };

    ghost view = { λ e. e.lists };

    ghost invariant = { λ e. (length e.lists ≤ 4194304) × (coefficients e.lists ≤ 1048576) };
}

impl Entries {
    /// The entries with these coefficients.
    pub fn new(lists: Items<Items<u16>>) -> Entries
        requires many { length lists ≤ 4194304 }
        requires cells { coefficients lists ≤ 1048576 }
        ensures { result ≡ lists }
    {
        Entries { lists }
    }

    /// The coefficients of each entry.
    pub fn as_slice(&self) -> &[Items<u16>]
        ensures value { result.now ≡ self.now }
        ensures many { length result.now ≤ 4194304 }
        ensures cells { coefficients result.now ≤ 1048576 }
    {
        self.lists.as_slice()
    }
}
