// Rows that span the ideal of relations.
ghost use Rattle.std.specs.Prelude.{◌≡◌, ℕ, ◌*◌, ◌/◌, ◌%◌, ◌<◌, ◌≤◌, [], IfOk, length, slice_index, slice_index_or};
ghost use Rattle.cap_matrix.specs.Grid.{Grid, entry};
ghost use Rattle.cap_quiver_laws.specs.Ideal.{ideal_rows, ideal_table};
ghost use Rattle.cap_quiver_paths.specs.Read.{numbers_in};
ghost use Rattle.cap_quiver_paths.specs.Relations.{relations_of};
ghost use Rattle.cap_quiver_paths.specs.TermNumbers.{number_in};
ghost use Rattle.cap_quiver_ideal.specs.Products.{product_at, AreResidueTerms};
ghost use Rattle.cap_quiver_ideal.specs.Spans.{IsShort, IsGrown, IsSpanOf};

use crate::products::{product_row, some_fits, some_follows};
use crate::reducing::is_spanned;
use cap_field::Field;
use cap_matrix::{Matrix, NoMemory};
use cap_names::Items;
use cap_quiver_paths::{Numbers, Relation};
use cap_reduce::rref;
use std::alloc::Global;

/// The reduced form of a matrix with one more row below it.
fn appended(alloc: Global, rows: &Matrix, row: Vec<u16>) -> Result<Matrix, NoMemory>
    requires short { IsShort rows.now.prime rows.now.column_count rows.now }
    requires narrow { rows.now.column_count ≤ 128 }
    requires long { length row.items ≡ rows.now.column_count }
    requires residues { (q : ℕ) → q < length row.items → slice_index row.items q < rows.now.prime }
    ensures { IfOk result (λ f. IsGrown 1 rows.now.column_count (λ _ q. slice_index row.items q) rows.now f) }
{
    let last = Matrix::from_cells(rows.field(), 1, rows.cols(), row);
    match rows.stack(alloc, &last) {
        Ok(whole) => {
            let reduced = rref(alloc, &whole)?;
            Ok(reduced)
        }
        Err(_) => Err(NoMemory),
    }
}

/// Reduced rows that span these rows and one more.
fn with_row(alloc: Global, rows: Matrix, row: Vec<u16>) -> Result<Matrix, NoMemory>
    requires short { IsShort rows.prime rows.column_count rows }
    requires narrow { rows.column_count ≤ 128 }
    requires long { length row.items ≡ rows.column_count }
    requires residues { (q : ℕ) → q < length row.items → slice_index row.items q < rows.prime }
    ensures { IfOk result (λ f. IsGrown 1 rows.column_count (λ _ q. slice_index row.items q) rows f) }
{
    let mut rest = Vec::from_slice(alloc, row.as_slice())?;
    if is_spanned(&rows, &mut rest) {
        return Ok(rows);
    }
    let more = appended(alloc, &rows, row)?;
    Ok(more)
}

/// Reduced rows that span these rows and the product u·r·v.
fn with_product(
    alloc: Global,
    numbers: &Numbers,
    terms: &[(u16, Items<u32>)],
    list: &[u32],
    u: u32,
    v: u32,
    rows: Matrix,
) -> Result<Matrix, NoMemory>
    requires short { IsShort rows.prime (numbers_in numbers.now).count rows }
    requires long { length list.now ≡ length terms.now }
    requires residues { AreResidueTerms rows.prime terms.now }
    ensures { IfOk result (λ f. IsGrown 1 (numbers_in numbers.now).count (λ _. product_at rows.prime (numbers_in numbers.now) terms.now list.now u v) rows f) }
{
    let field = rows.field();
    if !some_fits(numbers, list, u, v) {
        return Ok(rows);
    }
    let row = product_row(alloc, field, numbers, terms, list, u, v)?;
    let more = with_row(alloc, rows, row)?;
    Ok(more)
}

/// Reduced rows that span these rows and the products u·r·v for all paths v.
fn with_left(
    alloc: Global,
    numbers: &Numbers,
    terms: &[(u16, Items<u32>)],
    list: &[u32],
    u: u32,
    rows: Matrix,
) -> Result<Matrix, NoMemory>
    requires short { IsShort rows.prime (numbers_in numbers.now).count rows }
    requires long { length list.now ≡ length terms.now }
    requires residues { AreResidueTerms rows.prime terms.now }
    ensures { IfOk result (λ f. IsGrown (numbers_in numbers.now).count (numbers_in numbers.now).count (λ v. product_at rows.prime (numbers_in numbers.now) terms.now list.now u v) rows f) }
{
    let mut more = rows;
    if !some_follows(numbers, list, u) {
        return Ok(more);
    }
    for v in 0..numbers.count() {
        more = with_product(alloc, numbers, terms, list, u, v, more)?;
    }
    Ok(more)
}

/// Reduced rows that span these rows and the products u·r·v for all paths u and v.
fn with_relation(
    alloc: Global,
    numbers: &Numbers,
    terms: &[(u16, Items<u32>)],
    list: &[u32],
    rows: Matrix,
) -> Result<Matrix, NoMemory>
    requires short { IsShort rows.prime (numbers_in numbers.now).count rows }
    requires long { length list.now ≡ length terms.now }
    requires residues { AreResidueTerms rows.prime terms.now }
    ensures { IfOk result (λ f. IsGrown ((numbers_in numbers.now).count * (numbers_in numbers.now).count) (numbers_in numbers.now).count
        (λ i. product_at rows.prime (numbers_in numbers.now) terms.now list.now (i / (numbers_in numbers.now).count) (i % (numbers_in numbers.now).count)) rows f) }
{
    let mut more = rows;
    for u in 0..numbers.count() {
        more = with_left(alloc, numbers, terms, list, u, more)?;
    }
    Ok(more)
}

/// No row, with as many columns as there are paths.
fn no_rows(alloc: Global, field: Field, width: u32) -> Result<Matrix, NoMemory>
    requires { width ≤ 128 }
    ensures { IfOk result (λ j. IsShort field width j × (j.row_count ≡ 0) × (j.prime ≡ field)) }
{
    let _ = field.prime();
    match Matrix::zero(alloc, field, 0, width) {
        Ok(rows) => Ok(rows),
        Err(_) => Err(NoMemory),
    }
}

/// Reduced rows that span the ideal of relations whose terms have the listed path numbers.
pub fn spanning_rows(
    alloc: Global,
    field: Field,
    numbers: &Numbers,
    relations: &[Relation],
    terms: &[Items<u32>],
) -> Result<Matrix, NoMemory>
    requires many { length terms.now ≡ length relations.now }
    requires long { (r : ℕ) → r < length relations.now → length (slice_index_or terms.now r []) ≡ length ((relations_of relations.now).terms r) }
    requires residues { (r : ℕ) → r < length relations.now → AreResidueTerms field ((relations_of relations.now).terms r) }
    ensures { IfOk result (λ j. IsSpanOf field (ideal_rows (numbers_in numbers.now) (relations_of relations.now)) (numbers_in numbers.now).count
        (ideal_table field (numbers_in numbers.now) (relations_of relations.now) (number_in terms.now)) j) }
{
    let mut rows = no_rows(alloc, field, numbers.count())?;
    for r in 0..relations.len() {
        rows = with_relation(
            alloc,
            numbers,
            relations[r].terms.as_slice(),
            terms[r].as_slice(),
            rows,
        )?;
    }
    Ok(rows)
}
