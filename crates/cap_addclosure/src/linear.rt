// Sums and multiples of matrices of combinations, entry after entry.
ghost use Rattle.std.specs.Prelude.{◌≡◌, ℕ, ◌+◌, ◌*◌, ◌%◌, ◌<◌, length, slice_index, IfOk};
ghost use Rattle.cap_laws.specs.Answers.{Answers};
ghost use Rattle.cap_laws.specs.Table.{row_below};
ghost use Rattle.cap_add_laws.specs.Closure.{IsMorphismMatrix, closure_data};
ghost use Rattle.cap_addclosure.specs.Sizes.{closure_size};

use crate::AddMor;
use crate::build::{built, zero_cells};
use crate::products::add_multiple;
use cap_field::Field;
use cap_laws::{CatFault, Table};
use cap_names::Items;
use std::alloc::{AllocError, Global};

/// The sum of two rows of residues.
fn row_sum(alloc: Global, field: Field, x: &[u16], y: &[u16]) -> Result<Items<u16>, AllocError>
    requires long { length y.now ≡ length x.now }
    requires left { (k : ℕ) → k < length x.now → slice_index x.now k < field }
    requires right { (k : ℕ) → k < length y.now → slice_index y.now k < field }
    ensures { IfOk result (λ z. z ≡ row_below (length x.now) (λ k. (slice_index x.now k + slice_index y.now k) % field)) }
{
    let p = field.prime();
    let mut row = Vec::from_slice(alloc, x)?;
    add_multiple(&mut row, 1, y, p as u16, (65536 / p) as u16);
    Ok(Items::new(row))
}

/// A multiple of a row of residues.
fn row_multiple(alloc: Global, field: Field, n: u16, x: &[u16]) -> Result<Items<u16>, AllocError>
    requires factor { n < field }
    requires row { (k : ℕ) → k < length x.now → slice_index x.now k < field }
    ensures { IfOk result (λ z. z ≡ row_below (length x.now) (λ k. n * slice_index x.now k % field)) }
{
    let p = field.prime();
    let mut row = vec![in alloc; 0u16; x.len()]?;
    add_multiple(&mut row, n, x, p as u16, (65536 / p) as u16);
    Ok(Items::new(row))
}

/// The entries of f + g, row by row.
fn sum_entries<T: Table>(
    alloc: Global,
    table: &T,
    f: &AddMor,
    g: &AddMor,
) -> Result<Vec<Items<u16>>, AllocError>
    requires left { IsMorphismMatrix (T.table table.now) f.now }
    requires right { IsMorphismMatrix (T.table table.now) g.now }
    requires sources { f.now.from ≡ g.now.from }
    requires targets { f.now.to ≡ g.now.to }
    ensures { IfOk result (λ xs. xs.items ≡ ((closure_data (T.table table.now)).add f.now g.now).entries) }
{
    let field = table.field();
    let (x, y) = (f.entries(), g.entries());
    let mut entries = Vec::new(alloc);
    for k in 0..x.len() {
        let entry = row_sum(alloc, field, x[k].as_slice(), y[k].as_slice())?;
        entries.push(entry)?;
    }
    Ok(entries)
}

/// The entries of n·f, row by row.
fn multiple_entries<T: Table>(
    alloc: Global,
    table: &T,
    n: u16,
    f: &AddMor,
) -> Result<Vec<Items<u16>>, AllocError>
    requires matrix { IsMorphismMatrix (T.table table.now) f.now }
    requires residue { n < (T.table table.now).prime }
    ensures { IfOk result (λ xs. xs.items ≡ ((closure_data (T.table table.now)).scale n f.now).entries) }
{
    let field = table.field();
    let x = f.entries();
    let mut entries = Vec::new(alloc);
    for k in 0..x.len() {
        let entry = row_multiple(alloc, field, n, x[k].as_slice())?;
        entries.push(entry)?;
    }
    Ok(entries)
}

/// The sum f + g.
pub(crate) fn sum<T: Table>(
    alloc: Global,
    table: &T,
    f: &AddMor,
    g: &AddMor,
) -> Result<AddMor, CatFault>
    requires left { IsMorphismMatrix (T.table table.now) f.now }
    requires right { IsMorphismMatrix (T.table table.now) g.now }
    requires sources { f.now.from ≡ g.now.from }
    requires targets { f.now.to ≡ g.now.to }
    ensures { Answers (λ s. s ≡ closure_size (T.table table.now) f.now.from f.now.to) (λ x. x ≡ (closure_data (T.table table.now)).add f.now g.now) result }
{
    f.limits();
    let entries = sum_entries(alloc, table, f, g)?;
    built(alloc, f.source(), f.target(), entries)
}

/// The multiple n·f.
pub(crate) fn multiple<T: Table>(
    alloc: Global,
    table: &T,
    n: u16,
    f: &AddMor,
) -> Result<AddMor, CatFault>
    requires matrix { IsMorphismMatrix (T.table table.now) f.now }
    requires residue { n < (T.table table.now).prime }
    ensures { Answers (λ s. s ≡ closure_size (T.table table.now) f.now.from f.now.to) (λ x. x ≡ (closure_data (T.table table.now)).scale n f.now) result }
{
    f.limits();
    let entries = multiple_entries(alloc, table, n, f)?;
    built(alloc, f.source(), f.target(), entries)
}
