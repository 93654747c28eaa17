// The products u·r·v of a relation with paths, as rows.
ghost use Rattle.std.specs.Prelude.{◌≡◌, ℕ, ◌+◌, ◌*◌, ◌%◌, ◌<◌, ◌≤◌, [], false, IfOk, length, slice_index, slice_index_or};
ghost use Rattle.cap_quiver_laws.specs.Quotient.{path_at};
ghost use Rattle.cap_quiver_paths.specs.Read.{numbers_in};
ghost use Rattle.cap_quiver_ideal.specs.Products.{IsProductRow, AreResidueTerms, NoneFollows, NoneFits};

use cap_field::Field;
use cap_names::Items;
use cap_quiver_paths::Numbers;
use std::alloc::{AllocError, Global};

/// Whether one of the listed paths can follow the path u.
pub(crate) fn some_follows(numbers: &Numbers, list: &[u32], u: u32) -> bool
    ensures { result ≡ false → NoneFollows (numbers_in numbers.now) list.now u }
{
    for k in 0..list.len() {
        if numbers.join(u, list[k]) < numbers.count() {
            return true;
        }
    }
    false
}

/// Whether one of the listed paths fits between the paths u and v.
pub(crate) fn some_fits(numbers: &Numbers, list: &[u32], u: u32, v: u32) -> bool
    ensures { result ≡ false → NoneFits (numbers_in numbers.now) list.now u v }
{
    for k in 0..list.len() {
        if numbers.join(numbers.join(u, list[k]), v) < numbers.count() {
            return true;
        }
    }
    false
}

/// Adds a coefficient to the entry of a path, where it is one.
fn add_at(row: &mut [u16], field: Field, at: u32, coefficient: u16)
    requires residues { (q : ℕ) → q < length row.old → slice_index row.old q < field }
    requires coefficient { coefficient < field }
    ensures { (q : ℕ) → q < length row.old → slice_index row.new q ≡ (slice_index row.old q + coefficient * path_at at q) % field }
{
    if (at as usize) < row.len() {
        row[at as usize] = field.add(row[at as usize], coefficient);
    }
}

/// Writes the product u·r·v to a row of zeros, where r has these coefficients, and its paths have the listed numbers.
fn add_terms(
    row: &mut [u16],
    field: Field,
    numbers: &Numbers,
    terms: &[(u16, Items<u32>)],
    list: &[u32],
    u: u32,
    v: u32,
)
    requires width { length row.old ≡ (numbers_in numbers.now).count }
    requires zeros { (q : ℕ) → q < length row.old → slice_index row.old q ≡ 0 }
    requires long { length list.now ≡ length terms.now }
    requires residues { AreResidueTerms field terms.now }
    ensures { IsProductRow field (numbers_in numbers.now) terms.now list.now u v row.new }
{
    let _ = field.prime();
    for k in 0..terms.len() {
        let at = numbers.join(numbers.join(u, list[k]), v);
        add_at(row, field, at, terms[k].0);
    }
}

/// The product u·r·v as a row.
pub(crate) fn product_row(
    alloc: Global,
    field: Field,
    numbers: &Numbers,
    terms: &[(u16, Items<u32>)],
    list: &[u32],
    u: u32,
    v: u32,
) -> Result<Vec<u16>, AllocError>
    requires long { length list.now ≡ length terms.now }
    requires residues { AreResidueTerms field terms.now }
    ensures { IfOk result (λ row. IsProductRow field (numbers_in numbers.now) terms.now list.now u v row.items) }
{
    let mut row = vec![in alloc; 0u16; numbers.count() as usize]?;
    add_terms(&mut row, field, numbers, terms, list, u, v);
    Ok(row)
}
