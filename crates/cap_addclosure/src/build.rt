// Matrices of combinations, entry after entry.
ghost use Rattle.std.specs.Prelude.{◌≡◌, ◌≤◌, ◌*◌, length, replicate, IfOk, IfErr};
ghost use Rattle.cap_laws.specs.Answers.{Answers};
ghost use Rattle.cap_laws.specs.Table.{row_below};
ghost use Rattle.cap_laws.specs.declared.faults.CatFault.TheVariants.{NoMemory as no_memory};
ghost use Rattle.cap_add_laws.specs.Closure.{AreObjects, joined, closure_data};
ghost use Rattle.cap_addclosure.specs.Sizes.{closure_size};

use crate::entries::copied;
use crate::sizes::{checked, width};
use crate::{AddMor, AddObj};
use cap_laws::{CatFault, Table};
use cap_names::Items;
use std::alloc::{AllocError, Global};

/// A buffer of n zeros.
pub(crate) fn zero_cells(alloc: Global, n: u32) -> Result<Vec<u16>, AllocError>
    ensures { IfOk result (λ x. x.items ≡ replicate n 0) }
{
    let cells = vec![in alloc; 0u16; n as usize]?;
    Ok(cells)
}

/// A row of n zeros.
pub(crate) fn zeros(alloc: Global, n: u32) -> Result<Items<u16>, AllocError>
    ensures { IfOk result (λ x. x ≡ row_below n (λ k. 0)) }
{
    let cells = zero_cells(alloc, n)?;
    Ok(Items::new(cells))
}

/// The matrix between copies of two lists with these entries.
pub(crate) fn built(
    alloc: Global,
    a: &AddObj,
    b: &AddObj,
    entries: Vec<Items<u16>>,
) -> Result<AddMor, CatFault>
    requires many { length entries.items ≡ length a.now * length b.now }
    requires few { length (joined entries.items) ≤ 1048576 }
    ensures value { IfOk result (λ f. f ≡ record { from = a.now; to = b.now; entries = entries.items }) }
    ensures fault { IfErr result (λ e. e ≡ no_memory) }
{
    let from = copied(alloc, a)?;
    let to = copied(alloc, b)?;
    Ok(AddMor::new(from, to, entries))
}

/// The entries of the zero matrix from a to b.
fn zero_entries<T: Table>(
    alloc: Global,
    table: &T,
    a: &[u32],
    b: &[u32],
) -> Result<Vec<Items<u16>>, AllocError>
    requires from { AreObjects (T.table table.now) a.now }
    requires to { AreObjects (T.table table.now) b.now }
    requires short { length a.now ≤ 4096 }
    requires narrow { length b.now ≤ 4096 }
    ensures { IfOk result (λ xs. xs.items ≡ ((closure_data (T.table table.now)).zero a.now b.now).entries) }
{
    let mut entries = Vec::new(alloc);
    for k in 0..a.len() * b.len() {
        let entry = zeros(alloc, width(table, a[k / b.len()], b[k % b.len()]))?;
        entries.push(entry)?;
    }
    Ok(entries)
}

/// The zero matrix from a to b.
pub(crate) fn zero_matrix<T: Table>(
    alloc: Global,
    table: &T,
    a: &AddObj,
    b: &AddObj,
) -> Result<AddMor, CatFault>
    requires from { AreObjects (T.table table.now) a.now }
    requires to { AreObjects (T.table table.now) b.now }
    ensures { Answers (λ s. s ≡ closure_size (T.table table.now) a.now b.now) (λ f. f ≡ (closure_data (T.table table.now)).zero a.now b.now) result }
{
    let (xs, ys) = (a.parts(), b.parts());
    let _count = checked(table, xs, ys)?;
    let entries = zero_entries(alloc, table, xs, ys)?;
    built(alloc, a, b, entries)
}
