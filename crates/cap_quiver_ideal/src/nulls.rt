// The coordinates of paths modulo an ideal.
ghost use Rattle.std.specs.Prelude.{IfOk};
ghost use Rattle.cap_matrix.specs.Grid.{transposed_of};
ghost use Rattle.cap_matrix.specs.Reduced.{IsNullBasis};

use cap_matrix::{Matrix, NoMemory};
use cap_reduce::null_rows;
use std::alloc::Global;

/// The coordinates of paths, one a column, where the rows span the ideal: the null rows of the transpose.
pub fn coordinates(alloc: Global, rows: &Matrix) -> Result<Matrix, NoMemory>
    ensures { IfOk result (λ n. IsNullBasis (transposed_of rows.now) n) }
{
    let turned = rows.transpose(alloc)?;
    match null_rows(alloc, &turned) {
        Ok(nulls) => Ok(nulls),
        Err(_) => Err(NoMemory),
    }
}
