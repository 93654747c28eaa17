// Object literals.
ghost use Rattle.std.specs.Prelude.{◌≡◌, map, IfOk};
ghost use Rattle.cap_checked.specs.Checked.{map_at_element, map_at_path, listed, functor, object, object_over, object_of_kind, object_lit};

use crate::literals::matrix;
use crate::numbers::{basis, dimensions, first_number, numbers, small};
use crate::tree::{CheckedObj, Part};
use cap_block_faults::{is_quiver, lines_of, objects_of};
use cap_grammar::{ObjTok, Over, RowsTok};
use cap_names::{Items, MatLit, Name, NoMemory, ObjLit};
use std::alloc::Global;

fn maps_at_elements(
    alloc: Global,
    names: &[Name],
    maps: &[(Items<Name>, RowsTok)],
) -> Result<Items<(u32, MatLit)>, NoMemory>
    ensures { IfOk result (λ xs. xs ≡ map (map_at_element names.now) maps.now) }
{
    let mut checked = Vec::new(alloc);
    'maps: for map in maps {
        let element = first_number(names, map.0.as_slice());
        let matrix = matrix(alloc, &map.1)?;
        checked.push((element, matrix))?;
    }
    Ok(Items::new(checked))
}

fn maps_at_paths(
    alloc: Global,
    names: &[Name],
    maps: &[(Items<Name>, RowsTok)],
) -> Result<Items<(Items<u32>, MatLit)>, NoMemory>
    ensures { IfOk result (λ xs. xs ≡ map (map_at_path names.now) maps.now) }
{
    let mut checked = Vec::new(alloc);
    'maps: for map in maps {
        let path = numbers(alloc, names, map.0.as_slice())?;
        let matrix = matrix(alloc, &map.1)?;
        checked.push((path, matrix))?;
    }
    Ok(Items::new(checked))
}

fn listed(maps: &Option<Items<(Items<Name>, RowsTok)>>) -> &[(Items<Name>, RowsTok)]
    ensures { result.now ≡ listed maps.now }
{
    match maps {
        None => &[],
        Some(maps) => maps.as_slice(),
    }
}

fn functor(
    alloc: Global,
    quiver: bool,
    names: &[Name],
    dims: &[u64],
    maps: &[(Items<Name>, RowsTok)],
) -> Result<CheckedObj, NoMemory>
    ensures { IfOk result (λ x. x ≡ functor quiver names.now dims.now maps.now) }
{
    let dims = dimensions(alloc, dims)?;
    if quiver {
        let maps = maps_at_paths(alloc, names, maps)?;
        Ok(CheckedObj::Paths { dims, maps })
    } else {
        let maps = maps_at_elements(alloc, names, maps)?;
        Ok(CheckedObj::Lit(ObjLit::Dims { dims, maps }))
    }
}

fn object(
    alloc: Global,
    quiver: bool,
    objects: &[Name],
    names: &[Name],
    lit: &ObjTok,
) -> Result<CheckedObj, NoMemory>
    ensures { IfOk result (λ x. x ≡ object quiver objects.now names.now lit.now) }
{
    match lit {
        ObjTok::Dim(dim) => Ok(CheckedObj::Lit(ObjLit::Dim(small(*dim)))),
        ObjTok::Parts(parts) => {
            let parts = numbers(alloc, objects, parts.as_slice())?;
            Ok(CheckedObj::Lit(ObjLit::Parts(parts)))
        }
        ObjTok::Relation { src, tgt, rho } => {
            let src = numbers(alloc, objects, src.as_slice())?;
            let tgt = numbers(alloc, objects, tgt.as_slice())?;
            let rho = matrix(alloc, rho)?;
            Ok(CheckedObj::Lit(ObjLit::Relation { src, tgt, rho }))
        }
        ObjTok::Dims { dims, maps } => {
            functor(alloc, quiver, names, dims.as_slice(), listed(maps))
        }
    }
}

fn object_over(
    alloc: Global,
    parts: &[Part],
    block: Name,
    lit: &ObjTok,
) -> Result<CheckedObj, NoMemory>
    ensures { IfOk result (λ x. x ≡ object_over parts.now block lit.now) }
{
    let quiver = is_quiver(parts, block);
    let objects = objects_of(parts, block);
    let names = basis(alloc, lines_of(parts, block))?;
    object(alloc, quiver, objects, names.as_slice(), lit)
}

fn object_of_kind(
    alloc: Global,
    parts: &[Part],
    over: Over,
    lit: &ObjTok,
) -> Result<CheckedObj, NoMemory>
    ensures { IfOk result (λ x. x ≡ object_of_kind parts.now over lit.now) }
{
    match over {
        Over::Vec(_) => object(alloc, false, &[], &[], lit),
        Over::Add(block) => object_over(alloc, parts, block, lit),
        Over::Freyd(block) => object_over(alloc, parts, block, lit),
        Over::Rep(block) => object_over(alloc, parts, block, lit),
    }
}

/// An object literal of a category over this, behind these parts.
pub fn object_lit(
    alloc: Global,
    parts: &[Part],
    over: &Option<Over>,
    lit: &ObjTok,
) -> Result<CheckedObj, NoMemory>
    ensures { IfOk result (λ x. x ≡ object_lit parts.now over.now lit.now) }
{
    match over {
        None => object(alloc, false, &[], &[], lit),
        Some(over) => object_of_kind(alloc, parts, *over, lit),
    }
}
