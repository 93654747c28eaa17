// What products from both sides do to coefficients.
ghost use Rattle.std.specs.Prelude.{◌≡◌, ◌<◌, map, length, slice_index, IfOk};
ghost use Rattle.std.specs.List.{range_with_len};
ghost use Rattle.cap_homlaw.specs.Rows.{unit_row};
ghost use Rattle.cap_homlaw.specs.Hom.{hom_matrix, basis_of};
ghost use Rattle.cap_laws.specs.Answers.{Answers};
ghost use Rattle.cap_laws.specs.Table.{IsRow, table_data, width_of};
ghost use Rattle.cap_add_laws.specs.Closure.{IsMorphismMatrix, entry_of, joined, widths_of, sum_list, closure_data, closure_hom};
ghost use Rattle.cap_addclosure.specs.Sizes.{IsSizeInFactors};
ghost use Rattle.cap_addclosure.specs.TwoSided.{two_sided, IsStack};

use crate::AddMor;
use crate::build::zero_cells;
use crate::products::add_product;
use crate::sizes::{dimension, width};
use cap_laws::{CatFault, Table};
use cap_matrix::{Matrix, fits};
use std::alloc::{AllocError, Global};

/// The product of a combination u from x to y and a combination v from y to z.
fn combined<T: Table>(
    alloc: Global,
    table: &T,
    x: u32,
    y: u32,
    z: u32,
    u: &[u16],
    v: &[u16],
) -> Result<Vec<u16>, AllocError>
    requires from { x < (T.table table.now).objects }
    requires middle { y < (T.table table.now).objects }
    requires to { z < (T.table table.now).objects }
    requires left { IsRow (T.table table.now) x y u.now }
    requires right { IsRow (T.table table.now) y z v.now }
    ensures { IfOk result (λ w. w.items ≡ ((table_data (T.table table.now)).compose (record { from = x; to = y; coefficients = u.now }) (record { from = y; to = z; coefficients = v.now })).coefficients) }
{
    let mut sum = zero_cells(alloc, width(table, x, z))?;
    add_product(table, &mut sum, x, y, z, u, v);
    Ok(sum)
}

/// The row of n numbers with 1 at place t and 0 elsewhere.
fn unit_cells(alloc: Global, n: u32, t: usize) -> Result<Vec<u16>, AllocError>
    requires { t < n }
    ensures { IfOk result (λ row. row.items ≡ unit_row n t) }
{
    let mut row = zero_cells(alloc, n)?;
    row[t] = 1;
    Ok(row)
}

/// The coefficients of the products of a combination w, from x to the j-th part of the source of r, with row j of r.
fn row_of_products<T: Table>(
    alloc: Global,
    table: &T,
    x: u32,
    w: &[u16],
    r: &AddMor,
    j: usize,
) -> Result<Vec<u16>, AllocError>
    requires matrix { IsMorphismMatrix (T.table table.now) r.now }
    requires row { j < length r.now.from }
    requires from { x < (T.table table.now).objects }
    requires combination { IsRow (T.table table.now) x (slice_index r.now.from j) w.now }
    ensures { IfOk result (λ row. row.items ≡ joined (map (λ v. ((table_data (T.table table.now)).compose (record { from = x; to = slice_index r.now.from j; coefficients = w.now }) (entry_of r.now j v)).coefficients) (range_with_len 0 (length r.now.to)))) }
{
    let (b, y) = (r.source().parts(), r.target().parts());
    let mut row = Vec::new(alloc);
    for v in 0..y.len() {
        let entry = combined(alloc, table, x, b[j], y[v], w, r.entry(j as u32, v as u32))?;
        row.extend_from_slice(&entry)?;
    }
    Ok(row)
}

/// The coefficients of l·e·r, where e has the t-th basis element at place (i, j) and zeros elsewhere.
fn two_sided_row<T: Table>(
    alloc: Global,
    table: &T,
    l: &AddMor,
    r: &AddMor,
    i: usize,
    j: usize,
    t: usize,
) -> Result<Vec<u16>, AllocError>
    requires left { IsMorphismMatrix (T.table table.now) l.now }
    requires right { IsMorphismMatrix (T.table table.now) r.now }
    requires row { i < length l.now.to }
    requires column { j < length r.now.from }
    requires element { t < width_of (T.table table.now) (slice_index l.now.to i) (slice_index r.now.from j) }
    ensures { IfOk result (λ row. row.items ≡ joined (two_sided (T.table table.now) l.now r.now i j t).entries) }
{
    let (x, a, b) = (l.source().parts(), l.target().parts(), r.source().parts());
    let element = unit_cells(alloc, width(table, a[i], b[j]), t)?;
    let mut row = Vec::new(alloc);
    for u in 0..x.len() {
        let factor = l.entry(u as u32, i as u32);
        let w = combined(alloc, table, x[u], a[i], b[j], factor, &element)?;
        let part = row_of_products(alloc, table, x[u], &w, r, j)?;
        row.extend_from_slice(&part)?;
    }
    Ok(row)
}

/// The rows of the matrix of l and r for place (i, j), one for each basis element there.
fn rows_of_place<T: Table>(
    alloc: Global,
    table: &T,
    l: &AddMor,
    r: &AddMor,
    i: usize,
    j: usize,
) -> Result<Vec<u16>, AllocError>
    requires left { IsMorphismMatrix (T.table table.now) l.now }
    requires right { IsMorphismMatrix (T.table table.now) r.now }
    requires row { i < length l.now.to }
    requires column { j < length r.now.from }
    ensures { IfOk result (λ rows. IsStack (width_of (T.table table.now) (slice_index l.now.to i) (slice_index r.now.from j)) (sum_list (widths_of (T.table table.now) l.now.from r.now.to))
        (λ t. joined (two_sided (T.table table.now) l.now r.now i j t).entries) rows.items) }
{
    let (a, b) = (l.target().parts(), r.source().parts());
    let mut rows = Vec::new(alloc);
    for t in 0..width(table, a[i], b[j]) as usize {
        let row = two_sided_row(alloc, table, l, r, i, j, t)?;
        rows.extend_from_slice(&row)?;
    }
    Ok(rows)
}

/// The rows of the matrix of l and r, one after another.
fn all_rows<T: Table>(
    alloc: Global,
    table: &T,
    l: &AddMor,
    r: &AddMor,
) -> Result<Vec<u16>, AllocError>
    requires left { IsMorphismMatrix (T.table table.now) l.now }
    requires right { IsMorphismMatrix (T.table table.now) r.now }
    ensures { IfOk result (λ rows. IsStack (sum_list (widths_of (T.table table.now) l.now.to r.now.from)) (sum_list (widths_of (T.table table.now) l.now.from r.now.to))
        (λ k. joined ((closure_data (T.table table.now)).compose ((closure_data (T.table table.now)).compose l.now (basis_of (closure_hom (T.table table.now)) l.now.to r.now.from k)) r.now).entries) rows.items) }
{
    let rows = l.target().parts().len();
    let cols = r.source().parts().len();
    let mut cells = Vec::new(alloc);
    for k in 0..rows * cols {
        let part = rows_of_place(alloc, table, l, r, k / cols, k % cols)?;
        cells.extend_from_slice(&part)?;
    }
    Ok(cells)
}

/// The matrix that sends the coefficients of each g to those of l·g·r.
pub(crate) fn matrix_of_factors<T: Table>(
    alloc: Global,
    table: &T,
    l: &AddMor,
    r: &AddMor,
) -> Result<Matrix, CatFault>
    requires left { IsMorphismMatrix (T.table table.now) l.now }
    requires right { IsMorphismMatrix (T.table table.now) r.now }
    ensures { Answers (IsSizeInFactors (T.table table.now) l.now r.now) (λ m. m ≡ hom_matrix (closure_data (T.table table.now)) (closure_hom (T.table table.now)) l.now r.now) result }
{
    l.limits();
    r.limits();
    let rows = dimension(table, l.target().parts(), r.source().parts());
    let cols = dimension(table, l.source().parts(), r.target().parts());
    if !fits(rows, cols) {
        return Err(CatFault::TooLarge { rows, cols });
    }
    let cells = all_rows(alloc, table, l, r)?;
    Ok(Matrix::from_cells(table.field(), rows, cols, cells))
}
