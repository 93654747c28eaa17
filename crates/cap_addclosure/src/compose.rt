// Products of matrices of combinations.
ghost use Rattle.std.specs.Prelude.{◌≡◌, ◌<◌, ◌*◌, length, slice_index, IfOk};
ghost use Rattle.cap_laws.specs.Answers.{Answers};
ghost use Rattle.cap_laws.specs.Table.{table_data};
ghost use Rattle.cap_add_laws.specs.Closure.{IsMorphismMatrix, entry_of, sum_below, closure_data};
ghost use Rattle.cap_addclosure.specs.Sizes.{closure_size};

use crate::AddMor;
use crate::build::{built, zero_cells};
use crate::products::add_product;
use crate::sizes::{checked, width};
use cap_laws::{CatFault, Table};
use cap_names::Items;
use std::alloc::{AllocError, Global};

/// Adds the products of row i of f and column k of g to a row of zeros.
fn add_products<T: Table>(table: &T, sum: &mut [u16], f: &AddMor, g: &AddMor, i: usize, k: usize)
    requires left { IsMorphismMatrix (T.table table.now) f.now }
    requires right { IsMorphismMatrix (T.table table.now) g.now }
    requires meet { f.now.to ≡ g.now.from }
    requires row { i < length f.now.from }
    requires column { k < length g.now.to }
    requires zeros { sum.old ≡ ((table_data (T.table table.now)).zero (slice_index f.now.from i) (slice_index g.now.to k)).coefficients }
    ensures { sum.new ≡ (sum_below (table_data (T.table table.now)) (slice_index f.now.from i) (slice_index g.now.to k) (length f.now.to) (λ j. (table_data (T.table table.now)).compose (entry_of f.now i j) (entry_of g.now j k))).coefficients }
{
    let (a, b, c) = (f.source().parts(), f.target().parts(), g.target().parts());
    for j in 0..b.len() {
        let left = f.entry(i as u32, j as u32);
        let right = g.entry(j as u32, k as u32);
        add_product(table, sum, a[i], b[j], c[k], left, right);
    }
}

/// The entry in row i and column k of f·g.
fn product_entry<T: Table>(
    alloc: Global,
    table: &T,
    f: &AddMor,
    g: &AddMor,
    i: usize,
    k: usize,
) -> Result<Items<u16>, AllocError>
    requires left { IsMorphismMatrix (T.table table.now) f.now }
    requires right { IsMorphismMatrix (T.table table.now) g.now }
    requires meet { f.now.to ≡ g.now.from }
    requires row { i < length f.now.from }
    requires column { k < length g.now.to }
    ensures { IfOk result (λ x. x ≡ (sum_below (table_data (T.table table.now)) (slice_index f.now.from i) (slice_index g.now.to k) (length f.now.to) (λ j. (table_data (T.table table.now)).compose (entry_of f.now i j) (entry_of g.now j k))).coefficients) }
{
    let (a, c) = (f.source().parts(), g.target().parts());
    let mut sum = zero_cells(alloc, width(table, a[i], c[k]))?;
    add_products(table, &mut sum, f, g, i, k);
    Ok(Items::new(sum))
}

/// The entries of f·g, row by row.
fn product_entries<T: Table>(
    alloc: Global,
    table: &T,
    f: &AddMor,
    g: &AddMor,
) -> Result<Vec<Items<u16>>, AllocError>
    requires left { IsMorphismMatrix (T.table table.now) f.now }
    requires right { IsMorphismMatrix (T.table table.now) g.now }
    requires meet { f.now.to ≡ g.now.from }
    ensures { IfOk result (λ xs. xs.items ≡ ((closure_data (T.table table.now)).compose f.now g.now).entries) }
{
    let rows = f.source().parts().len();
    let cols = g.target().parts().len();
    let mut entries = Vec::new(alloc);
    for k in 0..rows * cols {
        let entry = product_entry(alloc, table, f, g, k / cols, k % cols)?;
        entries.push(entry)?;
    }
    Ok(entries)
}

/// The product f·g.
pub(crate) fn product<T: Table>(
    alloc: Global,
    table: &T,
    f: &AddMor,
    g: &AddMor,
) -> Result<AddMor, CatFault>
    requires left { IsMorphismMatrix (T.table table.now) f.now }
    requires right { IsMorphismMatrix (T.table table.now) g.now }
    requires meet { f.now.to ≡ g.now.from }
    ensures { Answers (λ s. s ≡ closure_size (T.table table.now) f.now.from g.now.to) (λ x. x ≡ (closure_data (T.table table.now)).compose f.now g.now) result }
{
    let (a, c) = (f.source(), g.target());
    let _count = checked(table, a.parts(), c.parts())?;
    let entries = product_entries(alloc, table, f, g)?;
    built(alloc, a, c, entries)
}
