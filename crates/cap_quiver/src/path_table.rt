// The table of a quiver, with its basis paths.
ghost use Rattle.std.specs.Prelude.{◌≡◌, ◌<◌, ◌≤◌, [], length, slice_index_or};

use cap_laws::Table;
use cap_lincat::LinTable;
use cap_names::Items;

/// The multiplication table of a quiver with relations, and the arrows of its basis paths.
#[derive(Drop)]
pub struct PathTable {
    pub(crate) table: LinTable,
    pub(crate) paths: Items<Items<u32>>,
    ghost count: { length paths ≡ length (⟦<LinTable as Table>⟧.table table).basis },
    ghost few: { length paths ≤ 128 },
}

impl PathTable {
    /// The multiplication table.
    pub fn table(&self) -> &LinTable
        ensures { result.now ≡ self.now.table }
    {
        &self.table
    }

    /// The number of basis elements.
    pub fn count(&self) -> u32
        ensures { result ≡ length (⟦<LinTable as Table>⟧.table self.now.table).basis }
    {
        self.paths.len() as u32
    }

    /// The arrows of the path that a basis element is, in order.
    pub fn basis_path(&self, basis: u32) -> &[u32]
        requires { basis < length (⟦<LinTable as Table>⟧.table self.now.table).basis }
        ensures { result.now ≡ slice_index_or self.now.paths basis [] }
    {
        self.paths.as_slice()[basis as usize].as_slice()
    }
}
