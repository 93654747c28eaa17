// What is wrong in a literal, as its category asks.
ghost use Rattle.std.specs.Prelude.{◌≡◌, ◌++◌, OnOk, length, nat_le, nat_lt, not};
ghost use Rattle.cap_names.specs.declared.reasons.Reason.TheVariants.{Known, Sort, Limit};
ghost use Rattle.cap_block_faults.specs.Marks.{told, ◌or_else◌, each};
ghost use Rattle.cap_block_faults.specs.Names.{is_among};
ghost use Rattle.cap_block_faults.specs.Literals.{coeff_item, row_item, part_item, dim_item, matrix_item, entry_marks, entry_item, rows_marks, list_marks, has_map, maps_marks, some_maps, dims_marks, other_form, dim_marks, parts_marks, relation_marks, functor_marks, object_marks, matrix_marks, natural_marks, morphism_marks};

use crate::blocks::{put_int, put_path};
use crate::marks::{Mark, put, put_separator, told};
use crate::names::{Part, is_among, is_quiver, lines_of, objects_of};
use cap_grammar::{BlockLine, EntryTok, IntTok, MorTok, ObjTok, Over, RowsTok};
use cap_names::{Items, Name, Reason};
use std::alloc::AllocError;

fn put_coeffs(marks: &mut Vec<Mark>, integers: &[IntTok]) -> Result<(), AllocError>
    ensures { OnOk result (marks.new.items ≡ marks.old.items ++ each coeff_item integers.now) }
{
    'integers: for integer in integers {
        put_int(marks, None, *integer)?;
    }
    Ok(())
}

fn put_entry(marks: &mut Vec<Mark>, coeffs: bool, entry: &EntryTok) -> Result<(), AllocError>
    ensures { OnOk result (marks.new.items ≡ marks.old.items ++ entry_marks coeffs entry.now) }
{
    match entry {
        EntryTok::Int(integer) => {
            put_int(marks, told(coeffs, Reason::Sort), *integer)?;
        }
        EntryTok::Coeffs(integers) => {
            marks.push(told(!coeffs, Reason::Sort))?;
            put_coeffs(marks, integers.as_slice())?;
            marks.push(None)?;
        }
    }
    Ok(())
}

fn put_row(marks: &mut Vec<Mark>, coeffs: bool, entries: &[EntryTok]) -> Result<(), AllocError>
    ensures { OnOk result (marks.new.items ≡ marks.old.items ++ each (entry_item coeffs) entries.now) }
{
    'entries: for entry in entries {
        put_entry(marks, coeffs, entry)?;
    }
    Ok(())
}

fn put_inside(
    marks: &mut Vec<Mark>,
    coeffs: bool,
    rows: &[Items<EntryTok>],
) -> Result<(), AllocError>
    ensures { OnOk result (marks.new.items ≡ marks.old.items ++ each (row_item coeffs) rows.now) }
{
    'rows: for (i, row) in rows.iter().enumerate() {
        put_separator(marks, i, None)?;
        put_row(marks, coeffs, row.as_slice())?;
    }
    Ok(())
}

fn put_rows(
    marks: &mut Vec<Mark>,
    first: Mark,
    coeffs: bool,
    matrix: &RowsTok,
) -> Result<(), AllocError>
    ensures { OnOk result (marks.new.items ≡ marks.old.items ++ rows_marks first coeffs matrix.now) }
{
    marks.push(first)?;
    put_inside(marks, coeffs, matrix.rows.as_slice())?;
    marks.push(None)?;
    Ok(())
}

fn part_mark(objects: &[Name], before: usize, name: Name) -> Mark
    ensures { result ≡ (told (nat_le 64 before) Limit or_else told (not (is_among objects.now name)) Known) }
{
    if 64 <= before {
        Some(Reason::Limit)
    } else {
        told(!is_among(objects, name), Reason::Known)
    }
}

fn put_parts(marks: &mut Vec<Mark>, objects: &[Name], names: &[Name]) -> Result<(), AllocError>
    ensures { OnOk result (marks.new.items ≡ marks.old.items ++ each (part_item objects.now) names.now) }
{
    'names: for (i, name) in names.iter().enumerate() {
        put(marks, part_mark(objects, i, *name))?;
    }
    Ok(())
}

fn put_list(marks: &mut Vec<Mark>, objects: &[Name], names: &[Name]) -> Result<(), AllocError>
    ensures { OnOk result (marks.new.items ≡ marks.old.items ++ list_marks objects.now names.now) }
{
    marks.push(None)?;
    put_parts(marks, objects, names)?;
    marks.push(None)?;
    Ok(())
}

fn has_map(maps: &[(Items<Name>, RowsTok)], path: &Items<Name>) -> bool
    ensures { result ≡ has_map maps.now path.now }
{
    maps.iter().any(|map| map.0 == *path)
}

fn put_maps(
    marks: &mut Vec<Mark>,
    lines: &[BlockLine],
    table: bool,
    maps: &[(Items<Name>, RowsTok)],
) -> Result<(), AllocError>
    ensures { OnOk result (marks.new.items ≡ marks.old.items ++ maps_marks lines.now table maps.now) }
{
    'maps: for (i, map) in maps.iter().enumerate() {
        let star = told(table, Reason::Sort);
        let whole = told(has_map(&maps[..i], &map.0), Reason::Taken);
        put_path(marks, lines, star, whole, map.0.as_slice())?;
        put(marks, None)?;
        put_rows(marks, None, false, &map.1)?;
    }
    Ok(())
}

fn put_some_maps(
    marks: &mut Vec<Mark>,
    lines: &[BlockLine],
    table: bool,
    maps: &Option<Items<(Items<Name>, RowsTok)>>,
) -> Result<(), AllocError>
    ensures { OnOk result (marks.new.items ≡ marks.old.items ++ some_maps lines.now table maps.now) }
{
    match maps {
        None => Ok(()),
        Some(maps) => put_maps(marks, lines, table, maps.as_slice()),
    }
}

fn dim_mark(objects: usize, before: usize, dim: u64) -> Mark
    ensures { result ≡ (told (nat_lt 2048 dim) Limit or_else told (nat_le objects before) Sort) }
{
    if 2048 < dim {
        Some(Reason::Limit)
    } else {
        told(objects <= before, Reason::Sort)
    }
}

fn put_all_dims(marks: &mut Vec<Mark>, objects: usize, dims: &[u64]) -> Result<(), AllocError>
    ensures { OnOk result (marks.new.items ≡ marks.old.items ++ each (dim_item objects) dims.now) }
{
    'dims: for (i, dim) in dims.iter().enumerate() {
        put(marks, dim_mark(objects, i, *dim))?;
    }
    Ok(())
}

fn put_dims(marks: &mut Vec<Mark>, objects: usize, dims: &[u64]) -> Result<(), AllocError>
    ensures { OnOk result (marks.new.items ≡ marks.old.items ++ dims_marks objects dims.now) }
{
    marks.push(None)?;
    put_all_dims(marks, objects, dims)?;
    marks.push(told(dims.len() < objects, Reason::Sort))?;
    Ok(())
}

fn put_other_form(marks: &mut Vec<Mark>, lit: &ObjTok) -> Result<(), AllocError>
    ensures { OnOk result (marks.new.items ≡ marks.old.items ++ other_form lit.now) }
{
    let mark = match lit {
        ObjTok::Dim(dim) => {
            if 2048 < *dim {
                Some(Reason::Limit)
            } else {
                Some(Reason::Sort)
            }
        }
        _ => Some(Reason::Sort),
    };
    put(marks, mark)
}

fn put_dim(marks: &mut Vec<Mark>, lit: &ObjTok) -> Result<(), AllocError>
    ensures { OnOk result (marks.new.items ≡ marks.old.items ++ dim_marks lit.now) }
{
    match lit {
        ObjTok::Dim(dim) => put(marks, told(2048 < *dim, Reason::Limit)),
        _ => put_other_form(marks, lit),
    }
}

fn put_sum_object(marks: &mut Vec<Mark>, objects: &[Name], lit: &ObjTok) -> Result<(), AllocError>
    ensures { OnOk result (marks.new.items ≡ marks.old.items ++ parts_marks objects.now lit.now) }
{
    match lit {
        ObjTok::Parts(names) => put_list(marks, objects, names.as_slice()),
        _ => put_other_form(marks, lit),
    }
}

fn put_relation(marks: &mut Vec<Mark>, objects: &[Name], lit: &ObjTok) -> Result<(), AllocError>
    ensures { OnOk result (marks.new.items ≡ marks.old.items ++ relation_marks objects.now lit.now) }
{
    match lit {
        ObjTok::Relation { src, tgt, rho } => {
            put_list(marks, objects, src.as_slice())?;
            put(marks, None)?;
            put_list(marks, objects, tgt.as_slice())?;
            put_rows(marks, None, true, rho)
        }
        _ => put_other_form(marks, lit),
    }
}

fn put_functor(
    marks: &mut Vec<Mark>,
    objects: usize,
    lines: &[BlockLine],
    table: bool,
    lit: &ObjTok,
) -> Result<(), AllocError>
    ensures { OnOk result (marks.new.items ≡ marks.old.items ++ functor_marks objects lines.now table lit.now) }
{
    match lit {
        ObjTok::Dims { dims, maps } => {
            put_dims(marks, objects, dims.as_slice())?;
            put_some_maps(marks, lines, table, maps)
        }
        _ => put_other_form(marks, lit),
    }
}

/// Puts the marks of an object literal of a category over this, behind these parts.
pub fn put_object(
    marks: &mut Vec<Mark>,
    parts: &[Part],
    over: Over,
    lit: &ObjTok,
) -> Result<(), AllocError>
    ensures { OnOk result (marks.new.items ≡ marks.old.items ++ object_marks parts.now over lit.now) }
{
    match over {
        Over::Vec(_) => put_dim(marks, lit),
        Over::Add(table) => put_sum_object(marks, objects_of(parts, table), lit),
        Over::Freyd(table) => put_relation(marks, objects_of(parts, table), lit),
        Over::Rep(table) => {
            let objects = objects_of(parts, table).len();
            let lines = lines_of(parts, table);
            put_functor(marks, objects, lines, !is_quiver(parts, table), lit)
        }
    }
}

fn put_matrix(marks: &mut Vec<Mark>, coeffs: bool, lit: &MorTok) -> Result<(), AllocError>
    ensures { OnOk result (marks.new.items ≡ marks.old.items ++ matrix_marks coeffs lit.now) }
{
    match lit {
        MorTok::Rows(matrix) => put_rows(marks, None, coeffs, matrix),
        MorTok::Parts(_) => put(marks, Some(Reason::Sort)),
    }
}

fn put_matrices(
    marks: &mut Vec<Mark>,
    objects: usize,
    matrices: &[RowsTok],
) -> Result<(), AllocError>
    ensures { OnOk result (marks.new.items ≡ marks.old.items ++ each (matrix_item objects) matrices.now) }
{
    'matrices: for (i, matrix) in matrices.iter().enumerate() {
        put_rows(marks, told(objects <= i, Reason::Sort), false, matrix)?;
    }
    Ok(())
}

fn put_natural(marks: &mut Vec<Mark>, objects: usize, lit: &MorTok) -> Result<(), AllocError>
    ensures { OnOk result (marks.new.items ≡ marks.old.items ++ natural_marks objects lit.now) }
{
    match lit {
        MorTok::Rows(_) => put(marks, Some(Reason::Sort)),
        MorTok::Parts(matrices) => {
            put(marks, None)?;
            put_matrices(marks, objects, matrices.as_slice())?;
            put(marks, told(matrices.len() < objects, Reason::Sort))
        }
    }
}

/// Puts the marks of a morphism literal of a category over this, behind these parts.
pub fn put_morphism(
    marks: &mut Vec<Mark>,
    parts: &[Part],
    over: Over,
    lit: &MorTok,
) -> Result<(), AllocError>
    ensures { OnOk result (marks.new.items ≡ marks.old.items ++ morphism_marks parts.now over lit.now) }
{
    match over {
        Over::Vec(_) => put_matrix(marks, false, lit),
        Over::Add(_) | Over::Freyd(_) => put_matrix(marks, true, lit),
        Over::Rep(table) => put_natural(marks, objects_of(parts, table).len(), lit),
    }
}
