// The type of matrices, and what reads one or changes one in place.
ghost use Rattle.std.specs.Prelude.{◌≡◌, ℕ, ◌+◌, ◌*◌, ◌<◌, ◌≤◌, ◌↔◌, List, true, length, slice_index, IsTrue};
ghost use Rattle.cap_matrix.specs.Grid.{Grid, IsMatrix, entry, zero_of, with_entry, fits_limits};
ghost use Rattle.cap_matrix.specs.Buffer.{matrix_of, IsBufferOf};

use cap_field::Field;
use std::marker::Model;

/// A matrix over a prime field: at most 2,048 rows and columns, and 1,048,576 cells.
/// Contracts see it as its prime, its counts and the list of its rows.
#[derive(Drop)]
pub struct Matrix {
    field: Field,
    rows: u32,
    cols: u32,
    cells: Vec<u16>,
}

impl Model for Matrix {
    ghost use Rattle.std.specs.Prelude.{ℕ};
    ghost use Rattle.cap_matrix.specs.Grid.{Grid};
    ghost use Rattle.cap_matrix.specs.Buffer.{matrix_of, IsFlat};

    ghost Value = { Grid };

    ghost view = { λ m. matrix_of m.field m.rows m.cols m.cells.items };

    ghost invariant = { λ m. IsFlat m.field m.rows m.cols m.cells.items };
}

impl Matrix {
    /// The matrix of `rows` rows and `cols` columns whose cells, row after row, are given.
    pub fn from_cells(field: Field, rows: u32, cols: u32, cells: Vec<u16>) -> Matrix
        requires size { fits_limits rows cols ≡ true }
        requires long { length cells.items ≡ rows * cols }
        requires residues { (k : ℕ) → k < rows * cols → slice_index cells.items k < field }
        ensures { result ≡ matrix_of field rows cols cells.items }
    {
        let _ = field.prime();
        Matrix {
            field,
            rows,
            cols,
            cells,
        }
    }

    /// The cells in one buffer, row after row.
    pub fn into_cells(self) -> Vec<u16>
        ensures { IsBufferOf self result.items }
    {
        let Matrix {
            field: _,
            rows: _,
            cols: _,
            cells,
        } = self;
        cells
    }

    /// The cells, row after row.
    pub fn cells(&self) -> &[u16]
        ensures { IsBufferOf self.now result.now }
    {
        &self.cells
    }

    /// Takes the matrix out, and leaves one without rows and columns; takes no memory.
    pub fn take(&mut self) -> Matrix
        ensures taken { result ≡ self.old }
        ensures left { self.new ≡ zero_of self.old.prime 0 0 }
    {
        let empty = Vec::new(*self.cells.allocator());
        let field = self.field;
        std::mem::replace(self, Matrix::from_cells(field, 0, 0, empty))
    }

    /// The field of the entries.
    pub fn field(&self) -> Field
        ensures value { result ≡ self.now.prime }
        ensures matrix { IsMatrix self.now.prime self.now }
    {
        self.field
    }

    /// The row count.
    pub fn rows(&self) -> u32
        ensures value { result ≡ self.now.row_count }
        ensures limit { result ≤ 2048 }
    {
        self.rows
    }

    /// The column count.
    pub fn cols(&self) -> u32
        ensures value { result ≡ self.now.column_count }
        ensures limit { result ≤ 2048 }
    {
        self.cols
    }

    /// The entry in row `i` and column `j`, which count from 0.
    pub fn at(&self, i: u32, j: u32) -> u16
        requires row { i < self.now.row_count }
        requires column { j < self.now.column_count }
        ensures value { result ≡ entry self.now.entries i j }
        ensures residue { result < self.now.prime }
    {
        self.cells[i as usize * self.cols as usize + j as usize]
    }

    /// Makes `v` the entry in row `i` and column `j`, which count from 0.
    pub fn set(&mut self, i: u32, j: u32, v: u16)
        requires row { i < self.old.row_count }
        requires column { j < self.old.column_count }
        requires residue { v < self.old.prime }
        ensures { self.new ≡ with_entry self.old i j v }
    {
        let at = i as usize * self.cols as usize + j as usize;
        self.cells[at] = v;
    }

    /// Whether two matrices have one field, one size and the same entries.
    pub fn same(&self, b: &Matrix) -> bool
        ensures { IsTrue result ↔ (self.now ≡ b.now) }
    {
        self.field == b.field
            && self.rows == b.rows
            && self.cols == b.cols
            && self.cells.as_slice() == b.cells.as_slice()
    }
}
