// What makes a matrix of others, or from nothing.
ghost use Rattle.std.specs.Prelude.{◌≡◌, ℕ, ◌+◌, ◌*◌, ◌<◌, ◌≤◌, true, replicate, IfOk, OnOk, IfErr};
ghost use Rattle.cap_matrix.specs.Grid.{fits_limits, zero_of, unit_of, product_of, sum_of, scaled_of, transposed_of, stacked_of, beside_of, block_of, kron_of};
ghost use Rattle.cap_matrix.specs.Made.{IsMade, IsFault};

use crate::kernels::Shape;
use crate::{Matrix, MatrixFault, NoMemory, TooLarge, kernels};
use cap_field::Field;
use cap_matrix_limits::keeps;
use std::alloc::Global;

/// Whether a matrix of numbers of this size keeps the limits.
pub fn fits(rows: u32, cols: u32) -> bool
    ensures { result ≡ fits_limits rows cols }
{
    keeps(rows, cols, rows as u64 * cols as u64)
}

/// A flat buffer of zeros for a matrix within the limits.
fn zeros(alloc: Global, rows: u32, cols: u32) -> Result<Vec<u16>, NoMemory>
    requires { fits_limits rows cols ≡ true }
    ensures { IfOk result (λ v. v.items ≡ replicate (rows * cols) 0) }
{
    let cells = vec![in alloc; 0u16; rows as usize * cols as usize]?;
    Ok(cells)
}

/// A flat buffer of zeros for a matrix. Its size is judged before memory is asked for.
fn room(alloc: Global, rows: u32, cols: u32) -> Result<Vec<u16>, MatrixFault>
    ensures zeros { IfOk result (λ v. v.items ≡ replicate (rows * cols) 0) }
    ensures fits { OnOk result (fits_limits rows cols ≡ true) }
    ensures fault { IfErr result (λ e. IsFault e rows cols) }
{
    if !fits(rows, cols) {
        return Err(MatrixFault::TooLarge(TooLarge { rows, cols }));
    }
    let cells = zeros(alloc, rows, cols)?;
    Ok(cells)
}

impl Matrix {
    /// The zero matrix with `rows` rows and `cols` columns; past the limits `TooLarge` with that size.
    pub fn zero(alloc: Global, field: Field, rows: u32, cols: u32) -> Result<Matrix, MatrixFault>
        ensures { IsMade result (zero_of field rows cols) }
    {
        let cells = room(alloc, rows, cols)?;
        Ok(Matrix::from_cells(field, rows, cols, cells))
    }

    /// The identity with `n` rows and columns; past the limits `TooLarge` with that size.
    pub fn identity(alloc: Global, field: Field, n: u32) -> Result<Matrix, MatrixFault>
        ensures { IsMade result (unit_of field n) }
    {
        let mut cells = room(alloc, n, n)?;
        kernels::write_ones(&mut cells, n as usize);
        Ok(Matrix::from_cells(field, n, n, cells))
    }

    /// An equal matrix in memory of its own.
    pub fn copy(&self, alloc: Global) -> Result<Matrix, NoMemory>
        ensures { IfOk result (λ m. m ≡ self.now) }
    {
        let cells = Vec::from_slice(alloc, self.cells())?;
        Ok(Matrix::from_cells(self.field(), self.rows(), self.cols(), cells))
    }

    /// The matrix product with `b`, which has as many rows as this matrix has columns.
    /// `TooLarge` names the size of a product past the limits.
    pub fn product(&self, alloc: Global, b: &Matrix) -> Result<Matrix, MatrixFault>
        requires field { self.now.prime ≡ b.now.prime }
        requires meet { self.now.column_count ≡ b.now.row_count }
        ensures { IsMade result (product_of self.now b.now) }
    {
        let (field, rows, inner, cols) = (self.field(), self.rows(), self.cols(), b.cols());
        let (left, right) = (self.cells(), b.cells());
        let mut cells = room(alloc, rows, cols)?;
        let mut space = [0u32; 2048];
        kernels::multiply(
            &mut cells,
            &mut space[..cols as usize],
            left,
            Shape {
                rows: rows as usize,
                cols: inner as usize,
            },
            right,
            cols as usize,
            field.prime(),
        );
        Ok(Matrix::from_cells(field, rows, cols, cells))
    }

    /// The sum with a matrix of the same size, entry by entry.
    pub fn sum(&self, alloc: Global, b: &Matrix) -> Result<Matrix, NoMemory>
        requires field { self.now.prime ≡ b.now.prime }
        requires rows { self.now.row_count ≡ b.now.row_count }
        requires columns { self.now.column_count ≡ b.now.column_count }
        ensures { IfOk result (λ m. m ≡ sum_of self.now b.now) }
    {
        let (field, rows, cols) = (self.field(), self.rows(), self.cols());
        let (left, right) = (self.cells(), b.cells());
        let mut cells = Vec::from_slice(alloc, left)?;
        kernels::add_cells(&mut cells, right, field.prime() as u16);
        Ok(Matrix::from_cells(field, rows, cols, cells))
    }

    /// The multiple by the residue `n`, entry by entry.
    pub fn scale(&self, alloc: Global, n: u16) -> Result<Matrix, NoMemory>
        requires { n < self.now.prime }
        ensures { IfOk result (λ m. m ≡ scaled_of n self.now) }
    {
        let (field, rows, cols) = (self.field(), self.rows(), self.cols());
        let from = self.cells();
        let mut cells = zeros(alloc, rows, cols)?;
        let p = field.prime();
        kernels::scale_cells(&mut cells, from, n, p as u16, (65536 / p) as u16);
        Ok(Matrix::from_cells(field, rows, cols, cells))
    }

    /// The rows of this matrix above those of another with as many columns.
    /// `TooLarge` names the size of a result past the limits.
    pub fn stack(&self, alloc: Global, below: &Matrix) -> Result<Matrix, MatrixFault>
        requires field { self.now.prime ≡ below.now.prime }
        requires columns { self.now.column_count ≡ below.now.column_count }
        ensures { IsMade result (stacked_of self.now below.now) }
    {
        let (field, rows, cols) = (self.field(), self.rows() + below.rows(), self.cols());
        let (upper, lower) = (self.cells(), below.cells());
        let mut cells = room(alloc, rows, cols)?;
        kernels::join(&mut cells, upper, lower);
        Ok(Matrix::from_cells(field, rows, cols, cells))
    }

    /// The columns of this matrix left of those of another with as many rows.
    /// `TooLarge` names the size of a result past the limits.
    pub fn beside(&self, alloc: Global, right: &Matrix) -> Result<Matrix, MatrixFault>
        requires field { self.now.prime ≡ right.now.prime }
        requires rows { self.now.row_count ≡ right.now.row_count }
        ensures { IsMade result (beside_of self.now right.now) }
    {
        let (field, rows, first, second) = (self.field(), self.rows(), self.cols(), right.cols());
        let (a, b) = (self.cells(), right.cells());
        let mut cells = room(alloc, rows, first + second)?;
        kernels::join_rows(
            &mut cells,
            a,
            b,
            rows as usize,
            first as usize,
            second as usize,
        );
        Ok(Matrix::from_cells(field, rows, first + second, cells))
    }

    /// The transpose: row i is column i of this matrix.
    pub fn transpose(&self, alloc: Global) -> Result<Matrix, NoMemory>
        ensures { IfOk result (λ m. m ≡ transposed_of self.now) }
    {
        let (field, rows, cols) = (self.field(), self.rows(), self.cols());
        let from = self.cells();
        let mut cells = zeros(alloc, cols, rows)?;
        kernels::transpose(&mut cells, from, rows as usize, cols as usize);
        Ok(Matrix::from_cells(field, cols, rows, cells))
    }

    /// The `rows` rows and `cols` columns from row `row` and column `col` on, which count from 0.
    pub fn block(
        &self,
        alloc: Global,
        row: u32,
        col: u32,
        rows: u32,
        cols: u32,
    ) -> Result<Matrix, NoMemory>
        requires rows { row + rows ≤ self.now.row_count }
        requires columns { col + cols ≤ self.now.column_count }
        ensures { IfOk result (λ m. m ≡ block_of row col rows cols self.now) }
    {
        let (field, height, width) = (self.field(), self.rows(), self.cols());
        let from = self.cells();
        let mut cells = zeros(alloc, rows, cols)?;
        kernels::copy_block(
            &mut cells,
            Shape {
                rows: rows as usize,
                cols: cols as usize,
            },
            from,
            Shape {
                rows: height as usize,
                cols: width as usize,
            },
            row as usize,
            col as usize,
        );
        Ok(Matrix::from_cells(field, rows, cols, cells))
    }

    /// The Kronecker product: for each entry of this matrix the multiple of `b` by it, as a block.
    /// `TooLarge` names the size of a product past the limits.
    pub fn kron(&self, alloc: Global, b: &Matrix) -> Result<Matrix, MatrixFault>
        requires { self.now.prime ≡ b.now.prime }
        ensures { IsMade result (kron_of self.now b.now) }
    {
        let field = self.field();
        let (height, width, outer) = (self.rows(), self.cols(), self.cells());
        let (rows, cols, inner) = (b.rows(), b.cols(), b.cells());
        let mut cells = room(alloc, height * rows, width * cols)?;
        let p = field.prime();
        kernels::kron(
            &mut cells,
            outer,
            Shape {
                rows: height as usize,
                cols: width as usize,
            },
            inner,
            Shape {
                rows: rows as usize,
                cols: cols as usize,
            },
            p as u16,
            (65536 / p) as u16,
        );
        Ok(Matrix::from_cells(field, height * rows, width * cols, cells))
    }
}
