// Whether arrows and relations keep the limits.
ghost use Rattle.std.specs.Prelude.{◌≡◌, ℕ, ◌<◌, ◌≤◌, ◌↔◌, IsTrue, [], length, slice_index_or};
ghost use Rattle.cap_quiver_paths.specs.Relations.{relations_of};
ghost use Rattle.cap_quiver_ideal.specs.Products.{AreResidueTerms};
ghost use Rattle.cap_quiver.specs.Limits.{FitsRelation};

use cap_field::Field;
use cap_names::Items;
use cap_quiver_paths::Relation;

/// Whether the ends of all arrows are objects.
pub(crate) fn ends_inside(objects: u32, arrows: &[(u32, u32)]) -> bool
    ensures { IsTrue result ↔ ((a : ℕ) → a < length arrows.now → ((slice_index_or arrows.now a (0, 0)).0 < objects) × ((slice_index_or arrows.now a (0, 0)).1 < objects)) }
{
    for a in 0..arrows.len() {
        let (from, to) = arrows[a];
        if from >= objects || to >= objects {
            return false;
        }
    }
    true
}

/// Whether all coefficients are residues.
fn are_residues(field: Field, terms: &[(u16, Items<u32>)]) -> bool
    ensures { IsTrue result ↔ AreResidueTerms field terms.now }
{
    for k in 0..terms.len() {
        if terms[k].0 as u32 >= field.prime() {
            return false;
        }
    }
    true
}

/// Whether a relation has at most 16 terms, and its coefficients are residues.
fn relation_fits(field: Field, terms: &[(u16, Items<u32>)]) -> bool
    ensures { IsTrue result ↔ FitsRelation field terms.now }
{
    terms.len() <= 16 && are_residues(field, terms)
}

/// Whether each relation has at most 16 terms, and its coefficients are residues.
pub(crate) fn relations_fit(field: Field, relations: &[Relation]) -> bool
    ensures { IsTrue result ↔ ((r : ℕ) → r < length relations.now → FitsRelation field ((relations_of relations.now).terms r)) }
{
    for r in 0..relations.len() {
        if !relation_fits(field, relations[r].terms.as_slice()) {
            return false;
        }
    }
    true
}
