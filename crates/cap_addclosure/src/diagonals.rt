// Identities and direct sums: matrices with units on a diagonal.
ghost use Rattle.std.specs.Prelude.{◌≡◌, ℕ, ◌+◌, ◌<◌, ◌≤◌, ◌++◌, if◌then◌else◌, length, slice_index, IfOk};
ghost use Rattle.cap_laws.specs.Answers.{Answers};
ghost use Rattle.cap_laws.specs.Table.{table_data};
ghost use Rattle.cap_add_laws.specs.Closure.{AreObjects, diagonal_of, closure_sum};
ghost use Rattle.cap_addclosure.specs.Sizes.{closure_size, IsSizeInSum};

use crate::build::{built, zeros};
use crate::sizes::{checked, width};
use crate::{AddMor, AddObj};
use cap_laws::{CatFault, Sum, Table};
use cap_matrix_limits::MOST_SIDE;
use cap_names::Items;
use std::alloc::{AllocError, Global};

/// The unit of x, or the zero from x to y.
fn diagonal_entry<T: Table>(
    alloc: Global,
    table: &T,
    x: u32,
    y: u32,
    unit: bool,
) -> Result<Items<u16>, AllocError>
    requires from { x < (T.table table.now).objects }
    requires to { y < (T.table table.now).objects }
    ensures { IfOk result (λ z. z ≡ (if unit then (table_data (T.table table.now)).identity x else (table_data (T.table table.now)).zero x y).coefficients) }
{
    if unit {
        let row = Vec::from_slice(alloc, table.unit(x))?;
        return Ok(Items::new(row));
    }
    zeros(alloc, width(table, x, y))
}

/// The entries with units on the diagonal through row `row` and column `col`, one of which is 0, and zeros elsewhere.
fn diagonal_entries<T: Table>(
    alloc: Global,
    table: &T,
    a: &[u32],
    b: &[u32],
    row: usize,
    col: usize,
) -> Result<Vec<Items<u16>>, AllocError>
    requires from { AreObjects (T.table table.now) a.now }
    requires to { AreObjects (T.table table.now) b.now }
    requires short { length a.now ≤ 4096 }
    requires narrow { length b.now ≤ 4096 }
    requires row { row ≤ 4096 }
    requires column { col ≤ 4096 }
    ensures { IfOk result (λ xs. xs.items ≡ (diagonal_of (T.table table.now) a.now b.now row col).entries) }
{
    let mut entries = Vec::new(alloc);
    for k in 0..a.len() * b.len() {
        let (i, j) = (k / b.len(), k % b.len());
        let entry = diagonal_entry(alloc, table, a[i], b[j], i + col == j + row)?;
        entries.push(entry)?;
    }
    Ok(entries)
}

/// The matrix with units on the diagonal through row `row` and column `col`, one of which is 0, and zeros elsewhere.
pub(crate) fn diagonal<T: Table>(
    alloc: Global,
    table: &T,
    a: &AddObj,
    b: &AddObj,
    row: usize,
    col: usize,
) -> Result<AddMor, CatFault>
    requires from { AreObjects (T.table table.now) a.now }
    requires to { AreObjects (T.table table.now) b.now }
    requires row { row ≤ 4096 }
    requires column { col ≤ 4096 }
    requires equal { (i j : ℕ) → i < length a.now → j < length b.now → i + col ≡ j + row → slice_index a.now i ≡ slice_index b.now j }
    ensures { Answers (λ s. s ≡ closure_size (T.table table.now) a.now b.now) (λ x. x ≡ diagonal_of (T.table table.now) a.now b.now row col) result }
{
    let (xs, ys) = (a.parts(), b.parts());
    let _count = checked(table, xs, ys)?;
    let entries = diagonal_entries(alloc, table, xs, ys, row, col)?;
    built(alloc, a, b, entries)
}

/// One list after another.
fn both(alloc: Global, a: &AddObj, b: &AddObj) -> Result<AddObj, AllocError>
    requires { length a.now + length b.now ≤ 2048 }
    ensures { IfOk result (λ s. s ≡ a.now ++ b.now) }
{
    let mut parts = Vec::from_slice(alloc, a.parts())?;
    parts.extend_from_slice(b.parts())?;
    Ok(AddObj::new(parts))
}

/// The four morphisms of the direct sum of two lists, the first summand first.
pub(crate) fn direct_sum<T: Table>(
    alloc: Global,
    table: &T,
    a: &AddObj,
    b: &AddObj,
) -> Result<Sum<AddMor>, CatFault>
    requires left { AreObjects (T.table table.now) a.now }
    requires right { AreObjects (T.table table.now) b.now }
    ensures { Answers (IsSizeInSum (T.table table.now) a.now b.now) (λ x. x ≡ closure_sum (T.table table.now) a.now b.now) result }
{
    let (first, second) = (a.parts().len(), b.parts().len());
    let count = first + second;
    if count > MOST_SIDE as usize {
        return Err(CatFault::TooLarge {
            rows: first as u32,
            cols: count as u32,
        });
    }
    let s = both(alloc, a, b)?;
    let i1 = diagonal(alloc, table, a, &s, 0, 0)?;
    let i2 = diagonal(alloc, table, b, &s, 0, first)?;
    let p1 = diagonal(alloc, table, &s, a, 0, 0)?;
    let p2 = diagonal(alloc, table, &s, b, first, 0)?;
    Ok(Sum { i1, i2, p1, p2 })
}
