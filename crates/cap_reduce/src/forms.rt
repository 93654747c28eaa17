// The reduced row echelon form of a matrix, as a new matrix and in place.
ghost use Rattle.std.specs.Prelude.{◌≡◌, IfOk};
ghost use Rattle.cap_matrix.specs.Reduced.{IsReducedForm};
ghost use Rattle.cap_reduce.specs.Answers.{IsReducedInPlace};

use crate::elimination::reduce_flat;
use cap_matrix::{Matrix, NoMemory};
use std::alloc::Global;

/// The reduced row echelon form without zero rows: as many rows as the rank.
pub fn rref(alloc: Global, m: &Matrix) -> Result<Matrix, NoMemory>
    ensures { IfOk result (λ r. IsReducedForm m.now r) }
{
    let rows = m.rows() as usize;
    let cols = m.cols() as usize;
    let field = m.field();
    let mut cells = m.cells().to_vec(alloc)?;
    let rank = reduce_flat(&mut cells, field, rows, cols);
    cells.truncate(rank * cols);
    Ok(Matrix::from_cells(field, rank as u32, cols as u32, cells))
}

/// Leaves the rows of the reduced row echelon form above zero rows, and answers the rank.
/// Takes no memory.
pub fn reduce_in_place(m: &mut Matrix) -> u32
    ensures { IsReducedInPlace m.old m.new result }
{
    let rows = m.rows();
    let cols = m.cols();
    let field = m.field();
    let mut cells = m.take().into_cells();
    let rank = reduce_flat(&mut cells, field, rows as usize, cols as usize);
    *m = Matrix::from_cells(field, rows, cols, cells);
    rank as u32
}
