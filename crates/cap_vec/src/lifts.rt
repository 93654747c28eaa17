// Lifts by one elimination for all rows, and colifts by transposes.
ghost use Rattle.std.specs.Prelude.{◌≡◌, ℕ, ◌*◌, ◌<◌, true, length, slice_index};
ghost use Rattle.cap_field.specs.Residue.{is_tabled};
ghost use Rattle.cap_matrix.specs.Buffer.{matrix_of};
ghost use Rattle.cap_matrix.specs.Grid.{IsMatrix};
ghost use Rattle.cap_laws.specs.Answers.{Answers};
ghost use Rattle.cap_vec.specs.Members.{lift_of, colift_of};
ghost use Rattle.cap_vec.specs.Sizes.{IsSizeOf, IsSizeInLift, IsSizeInColift};
ghost use Rattle.cap_vec.specs.Solved.{AreRowsSolved};

use crate::morphism::{VecMor, transposed};
use cap_field::Field;
use cap_laws::CatFault;
use cap_matrix::{Matrix, fits};
use cap_names::Items;
use cap_reduce::{SolvedRows, solve_rows};
use std::alloc::Global;

/// The canonical solutions for the rows of x, one after the other; `None` where some row has none.
fn row_solutions(alloc: Global, x: &VecMor, f: &VecMor) -> Result<Option<Items<u16>>, CatFault>
    requires prime { x.now.prime ≡ f.now.prime }
    requires meet { x.now.column_count ≡ f.now.column_count }
    ensures { AreRowsSolved x.now f.now result }
{
    match solve_rows(alloc, f.matrix(), x.matrix()) {
        Ok(SolvedRows::All(cells)) => Ok(Some(cells)),
        Ok(SolvedRows::Unsolved(_)) => Ok(None),
        Err(_) => Err(CatFault::NoMemory),
    }
}

/// The matrix of these cells, where its size keeps the limits.
fn from_rows(field: Field, rows: u32, cols: u32, cells: Items<u16>) -> Result<VecMor, CatFault>
    requires long { length cells ≡ rows * cols }
    requires residues { (k : ℕ) → k < rows * cols → slice_index cells k < field }
    ensures { Answers (IsSizeOf (matrix_of field rows cols cells)) (λ x. x ≡ matrix_of field rows cols cells) result }
{
    if !fits(rows, cols) {
        return Err(CatFault::TooLarge { rows, cols });
    }
    Ok(VecMor::new(Matrix::from_cells(field, rows, cols, cells.into_vec())))
}

/// The canonical lift of x along f: some u with u·f = x, or `None` where there is none.
pub(crate) fn lift(
    alloc: Global,
    field: Field,
    x: &VecMor,
    f: &VecMor,
) -> Result<Option<VecMor>, CatFault>
    requires x { IsMatrix field x.now }
    requires f { IsMatrix field f.now }
    requires meet { x.now.column_count ≡ f.now.column_count }
    ensures { (t : is_tabled field ≡ true) → Answers (IsSizeInLift field t x.now f.now) (λ o. o ≡ lift_of field t x.now f.now) result }
{
    let _ = f.matrix().cells();
    match row_solutions(alloc, x, f) {
        Ok(None) => Ok(None),
        Ok(Some(cells)) => match from_rows(field, *x.source(), *f.source(), cells) {
            Ok(u) => Ok(Some(u)),
            Err(fault) => Err(fault),
        },
        Err(fault) => Err(fault),
    }
}

/// The canonical colift of x along f: some u with f·u = x, or `None` where there is none.
pub(crate) fn colift(
    alloc: Global,
    field: Field,
    f: &VecMor,
    x: &VecMor,
) -> Result<Option<VecMor>, CatFault>
    requires f { IsMatrix field f.now }
    requires x { IsMatrix field x.now }
    requires meet { f.now.row_count ≡ x.now.row_count }
    ensures { (t : is_tabled field ≡ true) → Answers (IsSizeInColift field t f.now x.now) (λ o. o ≡ colift_of field t f.now x.now) result }
{
    let turned_x = transposed(alloc, x)?;
    let turned_f = transposed(alloc, f)?;
    match lift(alloc, field, &turned_x, &turned_f) {
        Ok(None) => Ok(None),
        Ok(Some(u)) => match transposed(alloc, &u) {
            Ok(v) => Ok(Some(v)),
            Err(fault) => Err(fault),
        },
        Err(fault) => Err(fault),
    }
}
