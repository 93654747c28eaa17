// Units and products as rows of coordinates.
ghost use Rattle.std.specs.Prelude.{◌≡◌, ℕ, ◌*◌, ◌/◌, ◌%◌, ◌<◌, ◌≤◌, [], nat_lt, if◌then◌else◌, IfOk, length, slice_index, slice_index_or};
ghost use Rattle.cap_matrix.specs.Grid.{entry};
ghost use Rattle.cap_quiver_laws.specs.Quotient.{IsPathAlgebra};
ghost use Rattle.cap_quiver_paths.specs.Read.{numbers_in};
ghost use Rattle.cap_quiver.specs.Rows.{class_of, product_class_of, AreInside, AreUnitRows, AreProductRows};

use cap_matrix::Matrix;
use cap_names::Items;
use cap_quiver_paths::Numbers;
use std::alloc::{AllocError, Global};

/// The coordinate of path q at a basis element, and 0 where q is no path.
fn coordinate(rows: &Matrix, b: u32, q: u32) -> u16
    requires { b < rows.now.row_count }
    ensures { result ≡ (if nat_lt q rows.now.column_count then entry rows.now.entries b q else 0) }
{
    if q < rows.cols() { rows.at(b, q) } else { 0 }
}

/// The coordinates of path q at the basis elements of a Hom.
fn class_row(alloc: Global, rows: &Matrix, hom: &[u32], q: u32) -> Result<Vec<u16>, AllocError>
    requires { (l : ℕ) → l < length hom.now → slice_index hom.now l < rows.now.row_count }
    ensures { IfOk result (λ row. row.items ≡ class_of rows.now.column_count (entry rows.now.entries) hom.now q) }
{
    let mut row = Vec::with_capacity(alloc, hom.len())?;
    for l in 0..hom.len() {
        row.push(coordinate(rows, hom[l], q))?;
    }
    Ok(row)
}

/// The units of the objects.
pub(crate) fn unit_rows(
    alloc: Global,
    numbers: &Numbers,
    rows: &Matrix,
    homs: &[Items<u32>],
) -> Result<Items<Items<u16>>, AllocError>
    requires many { length homs.now ≡ (numbers_in numbers.now).objects * (numbers_in numbers.now).objects }
    requires inside { AreInside rows.now.row_count homs.now }
    ensures { IfOk result (λ units. AreUnitRows (numbers_in numbers.now) rows.now.column_count (entry rows.now.entries) homs.now units (numbers_in numbers.now).objects) }
{
    let mut units = Vec::new(alloc);
    for x in 0..numbers.objects() {
        let hom = homs[(x * numbers.objects() + x) as usize].as_slice();
        let row = class_row(alloc, rows, hom, numbers.unit(x))?;
        units.push(Items::new(row))?;
    }
    Ok(Items::new(units))
}

/// The product of two paths.
fn product_class(
    alloc: Global,
    numbers: &Numbers,
    rows: &Matrix,
    homs: &[Items<u32>],
    a: u32,
    b: u32,
) -> Result<Vec<u16>, AllocError>
    requires algebra { IsPathAlgebra (numbers_in numbers.now) }
    requires many { length homs.now ≡ (numbers_in numbers.now).objects * (numbers_in numbers.now).objects }
    requires inside { AreInside rows.now.row_count homs.now }
    requires first { a < (numbers_in numbers.now).count }
    requires second { b < (numbers_in numbers.now).count }
    ensures { IfOk result (λ row. row.items ≡ product_class_of (numbers_in numbers.now) rows.now.column_count (entry rows.now.entries) homs.now a b) }
{
    let (x, _) = numbers.ends(a);
    let (_, y) = numbers.ends(b);
    let hom = homs[(x * numbers.objects() + y) as usize].as_slice();
    let row = class_row(alloc, rows, hom, numbers.join(a, b))?;
    Ok(row)
}

/// The products of all pairs of basis paths, with the first path as the outer number.
pub(crate) fn product_rows(
    alloc: Global,
    numbers: &Numbers,
    rows: &Matrix,
    homs: &[Items<u32>],
    basis: &[u32],
) -> Result<Items<Items<u16>>, AllocError>
    requires algebra { IsPathAlgebra (numbers_in numbers.now) }
    requires many { length homs.now ≡ (numbers_in numbers.now).objects * (numbers_in numbers.now).objects }
    requires inside { AreInside rows.now.row_count homs.now }
    requires few { length basis.now ≤ 128 }
    requires basis { (b : ℕ) → b < length basis.now → slice_index basis.now b < (numbers_in numbers.now).count }
    ensures { IfOk result (λ products. AreProductRows (numbers_in numbers.now) rows.now.column_count (entry rows.now.entries) homs.now basis.now products (length basis.now * length basis.now)) }
{
    let n = basis.len();
    let mut products = Vec::new(alloc);
    for k in 0..n * n {
        let row = product_class(alloc, numbers, rows, homs, basis[k / n], basis[k % n])?;
        products.push(Items::new(row))?;
    }
    Ok(Items::new(products))
}
