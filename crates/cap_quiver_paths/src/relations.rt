// Whether the terms of relations are paths with one source and one target.
ghost use Rattle.std.specs.Prelude.{◌≡◌, ℕ, ◌<◌, ◌↔◌, IsTrue, MatchOption, [], List, length, slice_index_or};
ghost use Rattle.cap_quiver_laws.specs.Paths.{IsWalk, end_of};
ghost use Rattle.cap_quiver_laws.specs.Ideal.{IsTermPath, IsRelation};
ghost use Rattle.cap_quiver_paths.specs.Data.{quiver};
ghost use Rattle.cap_quiver_paths.specs.Relations.{relations_of, AreTerms};

use crate::relation::Relation;
use cap_names::Items;

/// Whether the arrows go from x to y, one after the other.
fn goes(arrows: &[(u32, u32)], x: u32, y: u32, list: &[u32]) -> bool
    ensures { IsTrue result ↔ (IsWalk (quiver 0 arrows.now 0) x list.now × (end_of (quiver 0 arrows.now 0) x list.now ≡ y)) }
{
    let mut at = x;
    for a in list {
        if *a as usize >= arrows.len() || arrows[*a as usize].0 != at {
            return false;
        }
        at = arrows[*a as usize].1;
    }
    at == y
}

/// Whether a term is a path of at least one arrow from x to y.
fn is_term_path(arrows: &[(u32, u32)], x: u32, y: u32, list: &[u32]) -> bool
    ensures { IsTrue result ↔ IsTermPath (quiver 0 arrows.now 0) x y list.now }
{
    !list.is_empty() && goes(arrows, x, y, list)
}

/// Whether all terms are paths from x to y.
fn all_go(arrows: &[(u32, u32)], x: u32, y: u32, terms: &[(u16, Items<u32>)]) -> bool
    ensures { IsTrue result ↔ AreTerms (quiver 0 arrows.now 0) terms.now x y }
{
    for k in 0..terms.len() {
        if !is_term_path(arrows, x, y, terms[k].1.as_slice()) {
            return false;
        }
    }
    true
}

/// The source of the first arrow and the target of the last one.
fn outer_ends(arrows: &[(u32, u32)], list: &[u32]) -> Option<(u32, u32)>
    ensures { MatchOption result ((x y : ℕ) → IsTermPath (quiver 0 arrows.now 0) x y list.now → ⊥)
        (λ e. (x y : ℕ) → IsTermPath (quiver 0 arrows.now 0) x y list.now → (x ≡ e.0) × (y ≡ e.1)) }
{
    if list.is_empty() {
        return None;
    }
    let first = list[0] as usize;
    let last = list[list.len() - 1] as usize;
    if first >= arrows.len() || last >= arrows.len() {
        return None;
    }
    Some((arrows[first].0, arrows[last].1))
}

/// Whether the terms of a relation are paths with one source and one target.
fn is_relation(arrows: &[(u32, u32)], terms: &[(u16, Items<u32>)]) -> bool
    ensures { IsTrue result ↔ ((x : ℕ) × (y : ℕ) × AreTerms (quiver 0 arrows.now 0) terms.now x y) }
{
    if terms.is_empty() {
        return true;
    }
    match outer_ends(arrows, terms[0].1.as_slice()) {
        None => false,
        Some((x, y)) => all_go(arrows, x, y, terms),
    }
}

/// The first relation whose terms are not paths with one source and one target.
pub fn first_bad(arrows: &[(u32, u32)], relations: &[Relation]) -> Option<usize>
    ensures { MatchOption result ((r : ℕ) → r < length relations.now → IsRelation (quiver 0 arrows.now 0) (relations_of relations.now) r)
        (λ n. (n < length relations.now) × (¬ IsRelation (quiver 0 arrows.now 0) (relations_of relations.now) n) × ((r : ℕ) → r < n → IsRelation (quiver 0 arrows.now 0) (relations_of relations.now) r)) }
{
    for r in 0..relations.len() {
        if !is_relation(arrows, relations[r].terms.as_slice()) {
            return Some(r);
        }
    }
    None
}
