// Matrices of combinations.
ghost use Rattle.std.specs.Prelude.{◌≡◌, ◌≤◌, ◌<◌, ◌+◌, ◌*◌, [], length, slice_index_or};
ghost use Rattle.cap_add_laws.specs.Closure.{MorphismMatrix, joined};

use crate::AddObj;
use cap_names::Items;
use std::marker::Model;

/// A matrix of combinations: at most 1,048,576 coefficients. Contracts see its two lists and the coefficients of its entries, row by row.
#[derive(Debug, Drop)]
pub struct AddMor {
    from: AddObj,
    to: AddObj,
    entries: Vec<Items<u16>>,
}

impl Model for AddMor {
    ghost use Rattle.std.specs.Prelude.{◌≡◌, ◌≤◌, ◌*◌, length};
    ghost use Rattle.cap_add_laws.specs.Closure.{MorphismMatrix, joined};

    ghost Value = { MorphismMatrix };

    ghost view = { λ f. record { from = f.from; to = f.to; entries = f.entries.items } };

    ghost invariant = { λ f. (length f.entries.items ≡ length f.from * length f.to) × (length (joined f.entries.items) ≤ 1048576) };
}

impl AddMor {
    /// The matrix from `from` to `to` with these entries, row by row.
    pub(crate) fn new(from: AddObj, to: AddObj, entries: Vec<Items<u16>>) -> AddMor
        requires many { length entries.items ≡ length from * length to }
        requires few { length (joined entries.items) ≤ 1048576 }
        ensures { result ≡ record { from = from; to = to; entries = entries.items } }
    {
        AddMor { from, to, entries }
    }

    /// The source.
    pub(crate) fn source(&self) -> &AddObj
        ensures { result.now ≡ self.now.from }
    {
        &self.from
    }

    /// The target.
    pub(crate) fn target(&self) -> &AddObj
        ensures { result.now ≡ self.now.to }
    {
        &self.to
    }

    /// The coefficients of all entries, row by row.
    pub fn entries(&self) -> &[Items<u16>]
        ensures value { result.now ≡ self.now.entries }
        ensures many { length self.now.entries ≡ length self.now.from * length self.now.to }
        ensures few { length (joined self.now.entries) ≤ 1048576 }
    {
        &self.entries
    }

    /// The coefficients of all entries, row by row, without a copy: at most 2,048 by 2,048 entries.
    pub fn into_entries(self) -> Vec<Items<u16>>
        ensures value { result.items ≡ self.entries }
        ensures many { length self.entries ≤ 4194304 }
        ensures few { length (joined self.entries) ≤ 1048576 }
    {
        self.limits();
        let AddMor {
            from: _,
            to: _,
            entries,
        } = self;
        entries
    }

    /// Every matrix keeps the limits.
    pub(crate) fn limits(&self)
        ensures rows { length self.now.from ≤ 2048 }
        ensures columns { length self.now.to ≤ 2048 }
        ensures cells { length (joined self.now.entries) ≤ 1048576 }
    {
        let _ = self.from.parts();
        let _ = self.to.parts();
        let _ = self.entries();
    }

    /// The coefficients of the entry in row i and column j, which count from 0.
    pub fn entry(&self, i: u32, j: u32) -> &[u16]
        requires row { i < length self.now.from }
        requires column { j < length self.now.to }
        ensures { result.now ≡ slice_index_or self.now.entries (i * length self.now.to + j) [] }
    {
        let cols = self.to.parts().len();
        self.entries[i as usize * cols + j as usize].as_slice()
    }
}
