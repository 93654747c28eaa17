// How the paths of a quiver are numbered.
ghost use Rattle.std.specs.Prelude.{◌≡◌, ℕ, ◌+◌, ◌*◌, ◌<◌, ◌≤◌, ◌↔◌, ◌++◌, [], IsTrue, IfOk, length, slice_index_or};
ghost use Rattle.std.specs.List.{Contains};
ghost use Rattle.cap_quiver_laws.specs.Paths.{IsWalk, IsQuiver, IsPathList, IsNumbering, IsJoinable, path_of};
ghost use Rattle.cap_quiver_paths.specs.Data.{quiver};
ghost use Rattle.cap_quiver_paths.specs.Numbers.{IsNumberOf, IsJoin, joined_of, AreEndsSoFar, AreUnitNumbersSoFar, AreJoinsSoFar};
ghost use Rattle.cap_quiver_paths.specs.Read.{numbers_in};

use crate::numbers::Numbers;
use crate::walks::Walk;
use std::alloc::{AllocError, Global};

/// Whether a path begins at an object and has the first list of arrows and then the second.
fn is_joined(walk: &Walk, start: u32, first: &[u32], second: &[u32]) -> bool
    ensures { IsTrue result ↔ (walk.now ≡ record { start = start; arrows = first.now ++ second.now }) }
{
    if walk.start() != start {
        return false;
    }
    match walk.arrows().strip_prefix(first) {
        Some(rest) => rest == second,
        None => false,
    }
}

/// The number of the path that begins at an object and has the first list of arrows and then the second.
pub(crate) fn number_of(paths: &[Walk], start: u32, first: &[u32], second: &[u32]) -> u32
    requires { length paths.now ≤ 128 }
    ensures { IsNumberOf paths.now (record { start = start; arrows = first.now ++ second.now }) result }
{
    for a in 0..paths.len() {
        if is_joined(&paths[a], start, first, second) {
            return a as u32;
        }
    }
    paths.len() as u32
}

/// The ends of the paths.
fn path_ends(
    alloc: Global,
    arrows: &[(u32, u32)],
    paths: &[Walk],
) -> Result<Vec<(u32, u32)>, AllocError>
    requires { (a : ℕ) → a < length paths.now → IsWalk (quiver 0 arrows.now 0) (path_of paths.now a).start (path_of paths.now a).arrows }
    ensures { IfOk result (λ ends. AreEndsSoFar (quiver 0 arrows.now 0) paths.now ends.items (length paths.now)) }
{
    let mut ends = Vec::new(alloc);
    for a in 0..paths.len() {
        ends.push((paths[a].start(), paths[a].end(arrows)))?;
    }
    Ok(ends)
}

/// The numbers of the units.
fn unit_numbers(alloc: Global, objects: u32, paths: &[Walk]) -> Result<Vec<u32>, AllocError>
    requires { length paths.now ≤ 128 }
    ensures { IfOk result (λ units. AreUnitNumbersSoFar paths.now units.items objects) }
{
    let mut units = Vec::new(alloc);
    for x in 0..objects {
        units.push(number_of(paths, x, &[], &[]))?;
    }
    Ok(units)
}

/// The first path followed by the second, where that is shorter than the bound.
fn join(arrows: &[(u32, u32)], bound: u32, paths: &[Walk], a: usize, b: usize) -> u32
    requires few { length paths.now ≤ 128 }
    requires walks { (c : ℕ) → c < length paths.now → IsWalk (quiver 0 arrows.now 0) (path_of paths.now c).start (path_of paths.now c).arrows }
    requires joins { (c d : ℕ) → IsJoinable (quiver 0 arrows.now bound) paths.now c d → Contains paths.now (joined_of paths.now c d) }
    requires first { a < length paths.now }
    requires second { b < length paths.now }
    ensures { IsJoin (quiver 0 arrows.now bound) paths.now a b result }
{
    let (first, second) = (&paths[a], &paths[b]);
    let length = first.arrows().len() + second.arrows().len();
    if length < bound as usize && first.end(arrows) == second.start() {
        number_of(paths, first.start(), first.arrows(), second.arrows())
    } else {
        paths.len() as u32
    }
}

/// The joins of all pairs of paths, with the first path as the outer number.
fn all_joins(
    alloc: Global,
    arrows: &[(u32, u32)],
    bound: u32,
    paths: &[Walk],
) -> Result<Vec<u32>, AllocError>
    requires few { length paths.now ≤ 128 }
    requires walks { (c : ℕ) → c < length paths.now → IsWalk (quiver 0 arrows.now 0) (path_of paths.now c).start (path_of paths.now c).arrows }
    requires joins { (c d : ℕ) → IsJoinable (quiver 0 arrows.now bound) paths.now c d → Contains paths.now (joined_of paths.now c d) }
    ensures { IfOk result (λ joins. AreJoinsSoFar (quiver 0 arrows.now bound) paths.now joins.items (length paths.now * length paths.now)) }
{
    let count = paths.len();
    let mut joins = Vec::new(alloc);
    for k in 0..count * count {
        joins.push(join(arrows, bound, paths, k / count, k % count))?;
    }
    Ok(joins)
}

/// The numbers of the paths shorter than the bound.
pub fn numbered(
    alloc: Global,
    objects: u32,
    arrows: &[(u32, u32)],
    bound: u32,
    paths: &[Walk],
) -> Result<Numbers, AllocError>
    requires quiver { IsQuiver (quiver objects arrows.now bound) }
    requires few_objects { objects ≤ 16 }
    requires few { length paths.now ≤ 128 }
    requires paths { IsPathList (quiver objects arrows.now bound) paths.now }
    ensures { IfOk result (λ n. IsNumbering (quiver objects arrows.now bound) paths.now (numbers_in n)) }
{
    let ends = path_ends(alloc, arrows, paths)?;
    let units = unit_numbers(alloc, objects, paths)?;
    let joins = all_joins(alloc, arrows, bound, paths)?;
    Ok(Numbers::from_lists(objects, ends, units, joins))
}
