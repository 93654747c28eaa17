// The quotient of paths by the ideal of relations.
ghost use Rattle.std.specs.Prelude.{◌≡◌, ℕ, ◌<◌, ◌≤◌, [], IfOk, length, slice_index_or};
ghost use Rattle.cap_quiver_laws.specs.Quotient.{IsPathAlgebra, IsQuotient};
ghost use Rattle.cap_quiver_laws.specs.Ideal.{ideal_rows, ideal_table};
ghost use Rattle.cap_quiver_paths.specs.Read.{numbers_in};
ghost use Rattle.cap_quiver_paths.specs.Relations.{relations_of};
ghost use Rattle.cap_quiver_paths.specs.TermNumbers.{number_in};
ghost use Rattle.cap_quiver_ideal.specs.Products.{AreResidueTerms};
ghost use Rattle.cap_quiver.specs.Rows.{IsQuotientOf};

use crate::basis::{basis_ends, leads};
use crate::classes::{product_rows, unit_rows};
use cap_field::Field;
use cap_laws::Table;
use cap_lincat::{LinTable, all_homs};
use cap_matrix::NoMemory;
use cap_names::Items;
use cap_quiver_ideal::{coordinates, spanning_rows};
use cap_quiver_paths::{Numbers, Relation};
use std::alloc::Global;

/// The quotient of paths by the ideal of relations whose terms have the listed path numbers, and its basis paths.
pub(crate) fn quotient(
    alloc: Global,
    field: Field,
    numbers: &Numbers,
    relations: &[Relation],
    terms: &[Items<u32>],
) -> Result<(LinTable, Vec<u32>), NoMemory>
    requires algebra { IsPathAlgebra (numbers_in numbers.now) }
    requires many { length terms.now ≡ length relations.now }
    requires long { (r : ℕ) → r < length relations.now → length (slice_index_or terms.now r []) ≡ length ((relations_of relations.now).terms r) }
    requires residues { (r : ℕ) → r < length relations.now → AreResidueTerms field ((relations_of relations.now).terms r) }
    ensures { IfOk result (λ q. IsQuotientOf field (numbers_in numbers.now) (relations_of relations.now) (number_in terms.now) q.1.items (⟦<LinTable as Table>⟧.table q.0)) }
{
    let _ = field.prime();
    let span = spanning_rows(alloc, field, numbers, relations, terms)?;
    let rows = coordinates(alloc, &span)?;
    let basis = leads(alloc, &rows)?;
    let ends = basis_ends(alloc, numbers, basis.as_slice())?;
    let objects = numbers.objects();
    let homs = all_homs(alloc, objects, ends.as_slice())?;
    let units = unit_rows(alloc, numbers, &rows, homs.as_slice())?;
    let products = product_rows(alloc, numbers, &rows, homs.as_slice(), basis.as_slice())?;
    let elements = Items::new(ends);
    let table = LinTable::from_valid(field, objects, elements, units, products, homs);
    Ok((table, basis))
}
