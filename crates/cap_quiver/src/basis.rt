// The basis paths: where the rows of coordinates begin.
ghost use Rattle.std.specs.Prelude.{◌≡◌, ◌≢◌, ℕ, ◌<◌, ◌≤◌, IfOk, length, slice_index};
ghost use Rattle.cap_matrix.specs.Grid.{entry};
ghost use Rattle.cap_quiver_laws.specs.Paths.{path_of};
ghost use Rattle.cap_quiver_laws.specs.ClassTable.{IsLeads};
ghost use Rattle.cap_quiver_paths.specs.Read.{numbers_in};
ghost use Rattle.cap_quiver.specs.Rows.{HasEntry, AreEndsOf, AreArrowsOf};

use cap_matrix::Matrix;
use cap_names::Items;
use cap_quiver_paths::{Numbers, Walk};
use std::alloc::{AllocError, Global};

/// The first column in which a row is not 0.
fn lead(rows: &Matrix, f: u32) -> u32
    requires row { f < rows.now.row_count }
    requires some { HasEntry rows.now f }
    ensures inside { result < rows.now.column_count }
    ensures before { (j : ℕ) → j < result → entry rows.now.entries f j ≡ 0 }
    ensures some { entry rows.now.entries f result ≢ 0 }
{
    for q in 0..rows.cols() {
        if rows.at(f, q) != 0 {
            return q;
        }
    }
    0
}

/// The first column of each row.
pub(crate) fn leads(alloc: Global, rows: &Matrix) -> Result<Vec<u32>, AllocError>
    requires { (f : ℕ) → f < rows.now.row_count → HasEntry rows.now f }
    ensures { IfOk result (λ bs. (length bs.items ≡ rows.now.row_count) × IsLeads (entry rows.now.entries) rows.now.column_count bs.items) }
{
    let mut basis = Vec::new(alloc);
    for f in 0..rows.rows() {
        basis.push(lead(rows, f))?;
    }
    Ok(basis)
}

/// The ends of the basis paths.
pub(crate) fn basis_ends(
    alloc: Global,
    numbers: &Numbers,
    basis: &[u32],
) -> Result<Vec<(u32, u32)>, AllocError>
    requires { (b : ℕ) → b < length basis.now → slice_index basis.now b < (numbers_in numbers.now).count }
    ensures { IfOk result (λ ends. AreEndsOf (numbers_in numbers.now) basis.now ends.items (length basis.now)) }
{
    let mut ends = Vec::new(alloc);
    for b in 0..basis.len() {
        ends.push(numbers.ends(basis[b]))?;
    }
    Ok(ends)
}

/// The arrows of the basis paths.
pub(crate) fn basis_arrows(
    alloc: Global,
    paths: &[Walk],
    basis: &[u32],
) -> Result<Vec<Items<u32>>, AllocError>
    requires { (b : ℕ) → b < length basis.now → slice_index basis.now b < length paths.now }
    ensures { IfOk result (λ arrows. AreArrowsOf paths.now basis.now arrows.items (length basis.now)) }
{
    let mut arrows = Vec::new(alloc);
    for b in 0..basis.len() {
        let list = paths[basis[b] as usize].arrows().to_vec(alloc)?;
        arrows.push(Items::new(list))?;
    }
    Ok(arrows)
}
