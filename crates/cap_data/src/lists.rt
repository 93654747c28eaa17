// Lists of coefficients and of matrices: compared, counted and copied.
ghost use Rattle.std.specs.Prelude.{◌≡◌, ◌↔◌, ◌*◌, ◌≤◌, IsTrue, IfOk, length};
ghost use Rattle.cap_data.specs.Cells.{coefficients, cells_of, cells_of_all};

use cap_matrix::Matrix;
use cap_names::{Items, NoMemory};
use std::alloc::Global;

/// Whether the coefficients of two entries are equal.
fn same_entry(a: &Items<u16>, b: &Items<u16>) -> bool
    ensures { IsTrue result ↔ (a.now ≡ b.now) }
{
    a.as_slice() == b.as_slice()
}

/// Whether two lists of coefficients are equal.
pub(crate) fn same_entries(a: &[Items<u16>], b: &[Items<u16>]) -> bool
    ensures { IsTrue result ↔ (a.now ≡ b.now) }
{
    if a.len() != b.len() {
        return false;
    }
    for i in 0..a.len() {
        if !same_entry(&a[i], &b[i]) {
            return false;
        }
    }
    true
}

/// Whether two lists of matrices are equal.
pub(crate) fn same_matrices(a: &[Matrix], b: &[Matrix]) -> bool
    ensures { IsTrue result ↔ (a.now ≡ b.now) }
{
    if a.len() != b.len() {
        return false;
    }
    for i in 0..a.len() {
        if !a[i].same(&b[i]) {
            return false;
        }
    }
    true
}

/// How many coefficients there are.
pub(crate) fn count_coefficients(entries: &[Items<u16>]) -> u64
    requires { coefficients entries.now ≤ 1048576 }
    ensures { result ≡ coefficients entries.now }
{
    let mut count = 0;
    for entry in entries {
        count += entry.len() as u64;
    }
    count
}

/// How many cells a matrix has.
pub(crate) fn matrix_cells(m: &Matrix) -> u64
    ensures count { result ≡ cells_of m.now }
    ensures few { result ≤ 1048576 }
{
    m.cells().len() as u64
}

/// How many cells the matrices have.
pub(crate) fn count_cells(matrices: &[Matrix]) -> u64
    requires { length matrices.now ≤ 128 }
    ensures count { result ≡ cells_of_all matrices.now }
    ensures few { result ≤ 128 * 1048576 }
{
    let mut count = 0;
    for m in matrices {
        count += matrix_cells(m);
    }
    count
}

/// An equal list of numbers.
pub(crate) fn copy_numbers(alloc: Global, numbers: &[u32]) -> Result<Items<u32>, NoMemory>
    ensures { IfOk result (λ copy. copy ≡ numbers.now) }
{
    Ok(Items::new(Vec::from_slice(alloc, numbers)?))
}

/// An equal list of coefficients.
pub(crate) fn copy_entries(
    alloc: Global,
    entries: &[Items<u16>],
) -> Result<Items<Items<u16>>, NoMemory>
    ensures { IfOk result (λ copy. copy ≡ entries.now) }
{
    let mut copy = Vec::with_capacity(alloc, entries.len())?;
    for entry in entries {
        copy.push(Items::new(Vec::from_slice(alloc, entry.as_slice())?))?;
    }
    Ok(Items::new(copy))
}

/// An equal list of matrices.
pub(crate) fn copy_matrices(alloc: Global, matrices: &[Matrix]) -> Result<Items<Matrix>, NoMemory>
    ensures { IfOk result (λ copy. copy ≡ matrices.now) }
{
    let mut copy = Vec::with_capacity(alloc, matrices.len())?;
    for m in matrices {
        copy.push(m.copy(alloc)?)?;
    }
    Ok(Items::new(copy))
}
