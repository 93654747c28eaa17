// Direct sums by block forms.
ghost use Rattle.std.specs.Prelude.{◌≡◌, ℕ, ◌+◌, ◌*◌, ◌<◌, ◌≤◌, ◌==◌, if◌then◌else◌, length, slice_index};
ghost use Rattle.cap_matrix.specs.Made.{IsMade};
ghost use Rattle.cap_laws.specs.Answers.{Answers};
ghost use Rattle.cap_vec.specs.Sizes.{IsSizeOf, IsSizeInSum, block_sum, diagonal_of};

use crate::VecCat;
use crate::morphism::{VecMor, answered};
use cap_field::Field;
use cap_laws::{Additive, CatFault, Sum};
use cap_matrix::{Matrix, MatrixFault};
use cap_matrix_limits::MOST_SIDE;
use std::alloc::Global;

/// Writes ones into zeros, on the diagonal through row `row` and column `col`, one of which is 0.
#[tactic(auto, using(std::proofs::lemmas::Nat::rows))]
fn write_diagonal(cells: &mut [u16], rows: usize, cols: usize, row: usize, col: usize)
    requires size { length cells.old ≡ rows * cols }
    requires zeros { (i j : ℕ) → i < rows → j < cols → slice_index cells.old (i * cols + j) ≡ 0 }
    requires row { row ≤ 4096 }
    requires col { col ≤ 4096 }
    requires few { rows ≤ 4096 }
    ensures { (i j : ℕ) → i < rows → j < cols → slice_index cells.new (i * cols + j) ≡ (if i + col == j + row then 1 else 0) }
{
    for i in 0..rows {
        if i + col >= row && i + col - row < cols {
            cells[i * cols + (i + col - row)] = 1;
        }
    }
}

/// The matrix with ones on the diagonal through row `row` and column `col`.
fn diagonal_matrix(
    alloc: Global,
    field: Field,
    rows: u32,
    cols: u32,
    row: u32,
    col: u32,
) -> Result<Matrix, MatrixFault>
    requires row { row ≤ 4096 }
    requires col { col ≤ 4096 }
    ensures { IsMade result (diagonal_of field rows cols row col) }
{
    let mut cells = Matrix::zero(alloc, field, rows, cols)?.into_cells();
    write_diagonal(
        &mut cells,
        rows as usize,
        cols as usize,
        row as usize,
        col as usize,
    );
    Ok(Matrix::from_cells(field, rows, cols, cells))
}

/// That matrix as a morphism.
fn diagonal(
    alloc: Global,
    field: Field,
    rows: u32,
    cols: u32,
    row: u32,
    col: u32,
) -> Result<VecMor, CatFault>
    requires row { row ≤ 4096 }
    requires col { col ≤ 4096 }
    ensures { Answers (IsSizeOf (diagonal_of field rows cols row col)) (λ x. x ≡ diagonal_of field rows cols row col) result }
{
    answered(diagonal_matrix(alloc, field, rows, cols, row, col))
}

/// The block forms of a direct sum.
pub(crate) fn direct_sum(
    alloc: Global,
    field: Field,
    a: u32,
    b: u32,
) -> Result<Sum<VecMor>, CatFault>
    ensures { Answers (IsSizeInSum field a b) (λ x. x ≡ block_sum field a b) result }
{
    if a > MOST_SIDE || b > MOST_SIDE {
        return Err(CatFault::TooLarge {
            rows: a,
            cols: a.saturating_add(b),
        });
    }
    let i1 = diagonal(alloc, field, a, a + b, 0, 0)?;
    let i2 = diagonal(alloc, field, b, a + b, 0, a)?;
    let p1 = diagonal(alloc, field, a + b, a, 0, 0)?;
    let p2 = diagonal(alloc, field, a + b, b, a, 0)?;
    Ok(Sum { i1, i2, p1, p2 })
}

impl Additive for VecCat {
    ghost use Rattle.cap_vec_laws.proofs.DirectSum.{zero_object, direct_sum};
    ghost use Rattle.cap_vec.specs.Sizes.{IsSizeInSum, block_sum};

    ghost zero_object_of = { λ c. 0 };

    ghost sum_of = { λ c a b. block_sum c.field a b };

    ghost zero_object_meets = { λ c s. ⊥ };

    ghost direct_sum_meets = { λ c a b s. IsSizeInSum c.field a b s };

    fn zero_object(&self, _alloc: Global) -> Result<u32, CatFault> {
        Ok(0)
    }

    fn direct_sum(&self, alloc: Global, a: &u32, b: &u32) -> Result<Sum<VecMor>, CatFault> {
        direct_sum(alloc, self.field, *a, *b)
    }

    ghost zero_object_is = { λ c. zero_object c.field c.tabled };

    ghost sum_is = { λ c a b h k. direct_sum c.field c.tabled a b };
}
