// The paths shorter than a bound, length by length.
ghost use Rattle.std.specs.Prelude.{◌≡◌, ℕ, slice_index_or, ◌+◌, ◌<◌, ◌≤◌, ◌++◌, ◌∷◌, [], IfOk, MatchOption, length};
ghost use Rattle.cap_quiver_laws.specs.Paths.{IsWalk, end_of, IsLevel, IsPathList};
ghost use Rattle.cap_quiver_paths.specs.Data.{quiver, HasMany, HasManyShort};

use cap_names::Items;
use std::alloc::{AllocError, Global};
use std::marker::Model;

/// A path: the object where it begins, and its arrows.
#[derive(Debug, Drop)]
pub struct Walk {
    start: u32,
    arrows: Items<u32>,
}

impl Model for Walk {
    ghost use Rattle.cap_quiver_laws.specs.Paths.{Path};

    ghost Value = { Path };

    ghost view = { λ w. record { start = w.start; arrows = w.arrows } };
}

impl Walk {
    /// The object where the path begins.
    pub fn start(&self) -> u32
        ensures { result ≡ self.now.start }
    {
        self.start
    }

    /// The arrows of the path, in order.
    pub fn arrows(&self) -> &[u32]
        ensures { result.now ≡ self.now.arrows }
    {
        self.arrows.as_slice()
    }

    /// The object where the path ends.
    pub fn end(&self, arrows: &[(u32, u32)]) -> u32
        requires { IsWalk (quiver 0 arrows.now 0) self.now.start self.now.arrows }
        ensures { result ≡ end_of (quiver 0 arrows.now 0) self.now.start self.now.arrows }
    {
        let list = self.arrows();
        if list.len() == 0 {
            return self.start();
        }
        arrows[list[list.len() - 1] as usize].1
    }

    /// The path with one more arrow.
    pub fn followed(&self, alloc: Global, arrow: u32) -> Result<Walk, AllocError>
        ensures { IfOk result (λ w. w ≡ record { start = self.now.start; arrows = self.now.arrows ++ arrow ∷ [] }) }
    {
        let mut arrows = self.arrows.as_slice().to_vec(alloc)?;
        arrows.push(arrow)?;
        Ok(Walk {
            start: self.start,
            arrows: Items::new(arrows),
        })
    }
}

/// The units, by object.
fn units(alloc: Global, objects: u32, arrows: &[(u32, u32)]) -> Result<Vec<Walk>, AllocError>
    requires { objects ≤ 16 }
    ensures { IfOk result (λ level. IsLevel (quiver objects arrows.now 0) 0 level.items × (length level.items ≡ objects)) }
{
    let mut level = Vec::new(alloc);
    for start in 0..objects {
        level.push(Walk {
            start,
            arrows: Items::new(Vec::new(alloc)),
        })?;
    }
    Ok(level)
}

/// The paths of one arrow, by arrow.
fn singles(alloc: Global, objects: u32, arrows: &[(u32, u32)]) -> Result<Vec<Walk>, AllocError>
    requires few { length arrows.now ≤ 64 }
    requires ends { (a : ℕ) → a < length arrows.now → ((slice_index_or arrows.now a (0, 0)).0 < objects) × ((slice_index_or arrows.now a (0, 0)).1 < objects) }
    ensures { IfOk result (λ level. IsLevel (quiver objects arrows.now 0) 1 level.items × (length level.items ≡ length arrows.now)) }
{
    let mut level = Vec::new(alloc);
    for x in 0..arrows.len() {
        let mut list = Vec::new(alloc);
        list.push(x as u32)?;
        level.push(Walk {
            start: arrows[x].0,
            arrows: Items::new(list),
        })?;
    }
    Ok(level)
}

/// The paths of a level with one more arrow, in order; None where they are more than 128.
pub fn extended(
    alloc: Global,
    objects: u32,
    arrows: &[(u32, u32)],
    n: u32,
    level: &[Walk],
) -> Result<Option<Vec<Walk>>, AllocError>
    requires some { 1 ≤ n }
    requires few { length arrows.now ≤ 64 }
    requires level { IsLevel (quiver objects arrows.now 0) n level.now }
    ensures { IfOk result (λ o. MatchOption o (HasMany (quiver objects arrows.now 0) (n + 1) 128) (λ next. IsLevel (quiver objects arrows.now 0) (n + 1) next.items × (length next.items ≤ 128))) }
{
    let mut next = Vec::new(alloc);
    for a in 0..level.len() {
        for x in 0..arrows.len() {
            if arrows[x].0 == level[a].end(arrows) {
                next.push(level[a].followed(alloc, x as u32)?)?;
                if next.len() > 128 {
                    return Ok(None);
                }
            }
        }
    }
    Ok(Some(next))
}

/// The paths of the next length, where they are still shorter than the bound; None where they are more than 128.
fn following(
    alloc: Global,
    objects: u32,
    arrows: &[(u32, u32)],
    n: u32,
    bound: u32,
    level: &[Walk],
) -> Result<Option<Vec<Walk>>, AllocError>
    requires some { 1 ≤ n }
    requires small { n < 16 }
    requires few { length arrows.now ≤ 64 }
    requires level { IsLevel (quiver objects arrows.now 0) n level.now }
    ensures { IfOk result (λ o. MatchOption o ((n + 1 < bound) × HasMany (quiver objects arrows.now 0) (n + 1) 128)
        (λ next. (n + 1 < bound → IsLevel (quiver objects arrows.now 0) (n + 1) next.items) × (length next.items ≤ 128))) }
{
    if n + 1 < bound {
        let next = extended(alloc, objects, arrows, n, level)?;
        Ok(next)
    } else {
        Ok(Some(Vec::new(alloc)))
    }
}

/// All paths shorter than the bound, in order; None where they are more than 128.
pub fn all_paths(
    alloc: Global,
    objects: u32,
    arrows: &[(u32, u32)],
    bound: u32,
) -> Result<Option<Vec<Walk>>, AllocError>
    requires objects { objects ≤ 16 }
    requires few { length arrows.now ≤ 64 }
    requires ends { (a : ℕ) → a < length arrows.now → ((slice_index_or arrows.now a (0, 0)).0 < objects) × ((slice_index_or arrows.now a (0, 0)).1 < objects) }
    requires low { 1 ≤ bound }
    requires high { bound ≤ 16 }
    ensures { IfOk result (λ o. MatchOption o (HasManyShort (quiver objects arrows.now bound) 128) (λ ps. IsPathList (quiver objects arrows.now bound) ps.items × (length ps.items ≤ 128))) }
{
    let mut all = units(alloc, objects, arrows)?;
    let mut level = singles(alloc, objects, arrows)?;
    for n in 1..bound {
        if all.len() + level.len() > 128 {
            return Ok(None);
        }
        let Some(next) = following(alloc, objects, arrows, n, bound, &level)? else {
            return Ok(None);
        };
        all.append(&mut level)?;
        level = next;
    }
    Ok(Some(all))
}
