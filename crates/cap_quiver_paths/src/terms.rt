// The numbers of the terms of relations.
ghost use Rattle.std.specs.Prelude.{◌≡◌, ℕ, ◌<◌, ◌≤◌, IfOk, length};
ghost use Rattle.cap_quiver_laws.specs.Ideal.{IsTermPath, IsRelation};
ghost use Rattle.cap_quiver_paths.specs.Data.{quiver};
ghost use Rattle.cap_quiver_paths.specs.Relations.{relations_of, AreTerms};
ghost use Rattle.cap_quiver_paths.specs.TermNumbers.{HasShortTerms, IsArrowsNumber, AreTermNumbersSoFar, AreAllNumbersSoFar};

use crate::numbering::number_of;
use crate::relation::Relation;
use crate::walks::Walk;
use cap_names::Items;
use std::alloc::{AllocError, Global};

/// The number of the path with these arrows, and the number of paths where they are not shorter than the bound.
fn term_number(arrows: &[(u32, u32)], bound: u32, paths: &[Walk], list: &[u32]) -> u32
    requires few { length paths.now ≤ 128 }
    requires known { HasShortTerms (quiver 0 arrows.now bound) paths.now }
    requires term { (x : ℕ) × (y : ℕ) × IsTermPath (quiver 0 arrows.now bound) x y list.now }
    ensures { IsArrowsNumber (quiver 0 arrows.now bound) paths.now list.now result }
{
    if list.len() < bound as usize {
        number_of(paths, arrows[list[0] as usize].0, list, &[])
    } else {
        paths.len() as u32
    }
}

/// The numbers of the terms of one relation.
fn relation_numbers(
    alloc: Global,
    arrows: &[(u32, u32)],
    bound: u32,
    paths: &[Walk],
    terms: &[(u16, Items<u32>)],
) -> Result<Vec<u32>, AllocError>
    requires few { length paths.now ≤ 128 }
    requires known { HasShortTerms (quiver 0 arrows.now bound) paths.now }
    requires relation { (x : ℕ) × (y : ℕ) × AreTerms (quiver 0 arrows.now bound) terms.now x y }
    ensures { IfOk result (λ ns. AreTermNumbersSoFar (quiver 0 arrows.now bound) paths.now terms.now ns.items (length terms.now)) }
{
    let mut numbers = Vec::new(alloc);
    for k in 0..terms.len() {
        numbers.push(term_number(arrows, bound, paths, terms[k].1.as_slice()))?;
    }
    Ok(numbers)
}

/// The numbers of the terms of all relations.
pub fn term_numbers(
    alloc: Global,
    arrows: &[(u32, u32)],
    bound: u32,
    paths: &[Walk],
    relations: &[Relation],
) -> Result<Items<Items<u32>>, AllocError>
    requires few { length paths.now ≤ 128 }
    requires known { HasShortTerms (quiver 0 arrows.now bound) paths.now }
    requires good { (r : ℕ) → r < length relations.now → IsRelation (quiver 0 arrows.now bound) (relations_of relations.now) r }
    ensures { IfOk result (λ ns. AreAllNumbersSoFar (quiver 0 arrows.now bound) paths.now (relations_of relations.now).terms ns (length relations.now)) }
{
    let mut numbers = Vec::new(alloc);
    for r in 0..relations.len() {
        let list = relation_numbers(alloc, arrows, bound, paths, relations[r].terms.as_slice())?;
        numbers.push(Items::new(list))?;
    }
    Ok(Items::new(numbers))
}
