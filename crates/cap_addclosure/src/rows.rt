// The coefficients of all entries in one row, and such a row cut into entries.
ghost use Rattle.std.specs.Prelude.{◌≡◌, ◌≤◌, length, IfOk};
ghost use Rattle.cap_homlaw.specs.Rows.{AreResidues};
ghost use Rattle.cap_laws.specs.Answers.{Answers};
ghost use Rattle.cap_add_laws.specs.Closure.{AreObjects, joined, cut_by, widths_of, sum_list, closure_hom};
ghost use Rattle.cap_addclosure.specs.Sizes.{closure_size};

use crate::build::built;
use crate::sizes::{checked, width};
use crate::{AddMor, AddObj};
use cap_laws::{CatFault, Table};
use cap_names::Items;
use std::alloc::{AllocError, Global};

/// The coefficients of the entries, one entry after another.
pub(crate) fn all_coefficients(
    alloc: Global,
    entries: &[Items<u16>],
) -> Result<Vec<u16>, AllocError>
    ensures { IfOk result (λ row. row.items ≡ joined entries.now) }
{
    let mut row = Vec::new(alloc);
    for entry in entries {
        row.extend_from_slice(entry.as_slice())?;
    }
    Ok(row)
}

/// The entries of a matrix from a to b with these coefficients.
fn cut_entries<T: Table>(
    alloc: Global,
    table: &T,
    a: &[u32],
    b: &[u32],
    row: &[u16],
) -> Result<Vec<Items<u16>>, AllocError>
    requires from { AreObjects (T.table table.now) a.now }
    requires to { AreObjects (T.table table.now) b.now }
    requires short { length a.now ≤ 4096 }
    requires narrow { length b.now ≤ 4096 }
    requires long { length row.now ≡ sum_list (widths_of (T.table table.now) a.now b.now) }
    ensures { IfOk result (λ xs. xs.items ≡ cut_by (widths_of (T.table table.now) a.now b.now) row.now) }
{
    let mut entries = Vec::new(alloc);
    let mut start = 0;
    for k in 0..a.len() * b.len() {
        let end = start + width(table, a[k / b.len()], b[k % b.len()]) as usize;
        let entry = Vec::from_slice(alloc, &row[start..end])?;
        entries.push(Items::new(entry))?;
        start = end;
    }
    Ok(entries)
}

/// The matrix from a to b with these coefficients.
pub(crate) fn matrix_of_row<T: Table>(
    alloc: Global,
    table: &T,
    a: &AddObj,
    b: &AddObj,
    row: &[u16],
) -> Result<AddMor, CatFault>
    requires from { AreObjects (T.table table.now) a.now }
    requires to { AreObjects (T.table table.now) b.now }
    requires row { AreResidues (T.table table.now).prime (sum_list (widths_of (T.table table.now) a.now b.now)) row.now }
    ensures { Answers (λ s. s ≡ closure_size (T.table table.now) a.now b.now) (λ x. x ≡ (closure_hom (T.table table.now)).back a.now b.now row.now) result }
{
    let (xs, ys) = (a.parts(), b.parts());
    let _count = checked(table, xs, ys)?;
    let entries = cut_entries(alloc, table, xs, ys, row)?;
    built(alloc, a, b, entries)
}
