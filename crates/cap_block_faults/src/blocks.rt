// What is wrong in a block.
ghost use Rattle.std.specs.Prelude.{◌≡◌, ◌++◌, ◌∷◌, [], OnOk, ℕ, length, take, count_by, nat_le, not, ◌&&◌};
ghost use Rattle.std.specs.List.{list_any, list_all};
ghost use Rattle.cap_field.specs.Residue.{is_tabled};
ghost use Rattle.cap_names.specs.declared.reasons.Reason.TheVariants.{Known, Taken, Prime, Limit};
ghost use Rattle.cap_block_faults.specs.Marks.{told, ◌or_else◌, at_first, free};
ghost use Rattle.cap_block_faults.specs.Names.{has_basis, is_among};
ghost use Rattle.cap_block_faults.specs.Blocks.{no_limit, int_marks, path_marks, terms_marks, combo_marks, sum_marks, is_basis, is_arrow, is_relation, is_unit_of, is_product_of, object_mark, arrow_marks, line_marks, bound_marks, objects_marks, head_marks, lacks_unit, end_marks};

use crate::marks::{Mark, put, put_separator, told};
use crate::names::{Part, has_basis, has_block, is_among};
use cap_field::Field;
use cap_grammar::{Block, BlockLine, IntTok, TermTok};
use cap_names::{Name, Reason};
use std::alloc::AllocError;

/// Puts the marks of an integer, the first token of which has this mark.
pub fn put_int(marks: &mut Vec<Mark>, first: Mark, integer: IntTok) -> Result<(), AllocError>
    ensures { OnOk result (marks.new.items ≡ marks.old.items ++ int_marks first integer) }
{
    marks.push(first)?;
    if integer.minus {
        marks.push(None)?;
    }
    Ok(())
}

fn path_mark(lines: &[BlockLine], whole: Mark, before: usize, name: Name) -> Mark
    ensures { result ≡ (told (not (has_basis lines.now name)) Known or_else at_first before whole) }
{
    if !has_basis(lines, name) {
        Some(Reason::Known)
    } else if before == 0 {
        whole
    } else {
        None
    }
}

/// Puts the marks of a path of basis elements or arrows, with those of its stars and of the whole path.
pub fn put_path(
    marks: &mut Vec<Mark>,
    lines: &[BlockLine],
    star: Mark,
    whole: Mark,
    path: &[Name],
) -> Result<(), AllocError>
    ensures { OnOk result (marks.new.items ≡ marks.old.items ++ path_marks lines.now star whole path.now) }
{
    'names: for (i, name) in path.iter().enumerate() {
        put_separator(marks, i, star)?;
        put(marks, path_mark(lines, whole, i, *name))?;
    }
    Ok(())
}

fn put_combo_terms(
    marks: &mut Vec<Mark>,
    lines: &[BlockLine],
    terms: &[TermTok],
) -> Result<(), AllocError>
    ensures { OnOk result (marks.new.items ≡ marks.old.items ++ terms_marks lines.now no_limit terms.now) }
{
    'terms: for (i, term) in terms.iter().enumerate() {
        put_separator(marks, i, None)?;
        put_int(marks, None, term.coeff)?;
        put_path(marks, lines, None, None, term.path.as_slice())?;
    }
    Ok(())
}

fn put_combo(
    marks: &mut Vec<Mark>,
    lines: &[BlockLine],
    terms: &[TermTok],
) -> Result<(), AllocError>
    ensures { OnOk result (marks.new.items ≡ marks.old.items ++ combo_marks lines.now terms.now) }
{
    if terms.is_empty() {
        marks.push(None)?;
        Ok(())
    } else {
        put_combo_terms(marks, lines, terms)
    }
}

fn put_sum(marks: &mut Vec<Mark>, lines: &[BlockLine], terms: &[TermTok]) -> Result<(), AllocError>
    ensures { OnOk result (marks.new.items ≡ marks.old.items ++ sum_marks lines.now terms.now) }
{
    'terms: for (i, term) in terms.iter().enumerate() {
        put_separator(marks, i, None)?;
        put_int(marks, told(16 <= i, Reason::Limit), term.coeff)?;
        put_path(marks, lines, None, None, term.path.as_slice())?;
    }
    Ok(())
}

fn is_basis(line: &BlockLine) -> bool
    ensures { result ≡ is_basis line.now }
{
    matches!(line, BlockLine::Basis { .. })
}

fn is_arrow(line: &BlockLine) -> bool
    ensures { result ≡ is_arrow line.now }
{
    matches!(line, BlockLine::Arrow { .. })
}

fn is_relation(line: &BlockLine) -> bool
    ensures { result ≡ is_relation line.now }
{
    matches!(line, BlockLine::Relation { .. })
}

fn has_bases(lines: &[BlockLine], most: usize) -> bool
    ensures { result ≡ nat_le most (count_by is_basis lines.now) }
{
    most <= lines.iter().filter(|line| is_basis(line)).count()
}

fn has_arrows(lines: &[BlockLine], most: usize) -> bool
    ensures { result ≡ nat_le most (count_by is_arrow lines.now) }
{
    most <= lines.iter().filter(|line| is_arrow(line)).count()
}

fn has_relations(lines: &[BlockLine], most: usize) -> bool
    ensures { result ≡ nat_le most (count_by is_relation lines.now) }
{
    most <= lines.iter().filter(|line| is_relation(line)).count()
}

fn is_unit_of(line: &BlockLine, object: Name) -> bool
    ensures { result ≡ is_unit_of object line.now }
{
    match line {
        BlockLine::Unit { object: other, .. } => *other == object,
        _ => false,
    }
}

fn is_product_of(line: &BlockLine, left: Name, right: Name) -> bool
    ensures { result ≡ is_product_of left right line.now }
{
    match line {
        BlockLine::Product {
            left: l,
            right: r,
            ..
        } => *l == left && *r == right,
        _ => false,
    }
}

fn has_unit(lines: &[BlockLine], object: Name) -> bool
    ensures { result ≡ list_any (is_unit_of object) lines.now }
{
    lines.iter().any(|line| is_unit_of(line, object))
}

fn has_product(lines: &[BlockLine], left: Name, right: Name) -> bool
    ensures { result ≡ list_any (is_product_of left right) lines.now }
{
    lines.iter().any(|line| is_product_of(line, left, right))
}

fn object_mark(objects: &[Name], name: Name) -> Mark
    ensures { result ≡ object_mark objects.now name }
{
    told(!is_among(objects, name), Reason::Known)
}

fn put_arrow(
    marks: &mut Vec<Mark>,
    full: bool,
    objects: &[Name],
    before: &[BlockLine],
    name: Name,
    src: Name,
    tgt: Name,
) -> Result<(), AllocError>
    ensures { OnOk result (marks.new.items ≡ marks.old.items ++ arrow_marks full objects.now before.now name src tgt) }
{
    marks.push(told(full, Reason::Limit))?;
    marks.push(told(has_basis(before, name), Reason::Taken))?;
    marks.push(object_mark(objects, src))?;
    marks.push(object_mark(objects, tgt))?;
    marks.push(None)?;
    Ok(())
}

fn unit_mark(objects: &[Name], before: &[BlockLine], object: Name) -> Mark
    ensures { result ≡ (object_mark objects.now object or_else told (list_any (is_unit_of object) before.now) Taken) }
{
    if !is_among(objects, object) {
        Some(Reason::Known)
    } else {
        told(has_unit(before, object), Reason::Taken)
    }
}

fn product_mark(before: &[BlockLine], left: Name, right: Name) -> Mark
    ensures { result ≡ (told (not (has_basis before.now left)) Known or_else told (list_any (is_product_of left right) before.now) Taken) }
{
    if !has_basis(before, left) {
        Some(Reason::Known)
    } else {
        told(has_product(before, left, right), Reason::Taken)
    }
}

fn put_pair(marks: &mut Vec<Mark>, first: Mark, second: Mark) -> Result<(), AllocError>
    ensures { OnOk result (marks.new.items ≡ marks.old.items ++ first ∷ second ∷ []) }
{
    marks.push(first)?;
    marks.push(second)?;
    Ok(())
}

/// Puts the marks of the word and the factors of a product.
fn put_factors(
    marks: &mut Vec<Mark>,
    before: &[BlockLine],
    left: Name,
    right: Name,
) -> Result<(), AllocError>
    ensures { OnOk result (marks.new.items ≡ marks.old.items ++ free ∷ (told (not (has_basis before.now left)) Known or_else told (list_any (is_product_of left right) before.now) Taken) ∷ told (not (has_basis before.now right)) Known ∷ []) }
{
    marks.push(None)?;
    marks.push(product_mark(before, left, right))?;
    marks.push(told(!has_basis(before, right), Reason::Known))?;
    Ok(())
}

/// Puts the marks of an equals sign, a combination and the end of the line.
fn put_given(
    marks: &mut Vec<Mark>,
    before: &[BlockLine],
    combo: &[TermTok],
) -> Result<(), AllocError>
    ensures { OnOk result (marks.new.items ≡ marks.old.items ++ (free ∷ combo_marks before.now combo.now ++ free ∷ [])) }
{
    marks.push(None)?;
    put_combo(marks, before, combo)?;
    marks.push(None)?;
    Ok(())
}

/// Puts the marks of a line of a block with these objects, behind these lines.
pub fn put_line(
    marks: &mut Vec<Mark>,
    objects: &[Name],
    before: &[BlockLine],
    line: &BlockLine,
) -> Result<(), AllocError>
    ensures { OnOk result (marks.new.items ≡ marks.old.items ++ line_marks objects.now before.now line.now) }
{
    match line {
        BlockLine::Basis { name, src, tgt } => {
            let full = has_bases(before, 128);
            put_arrow(marks, full, objects, before, *name, *src, *tgt)?;
        }
        BlockLine::Unit { object, combo } => {
            put_pair(marks, None, unit_mark(objects, before, *object))?;
            put_given(marks, before, combo.as_slice())?;
        }
        BlockLine::Product { left, right, combo } => {
            put_factors(marks, before, *left, *right)?;
            put_given(marks, before, combo.as_slice())?;
        }
        BlockLine::Arrow { name, src, tgt } => {
            let full = has_arrows(before, 64);
            put_arrow(marks, full, objects, before, *name, *src, *tgt)?;
        }
        BlockLine::Relation { sum } => {
            marks.push(told(has_relations(before, 64), Reason::Limit))?;
            put_sum(marks, before, sum.as_slice())?;
            marks.push(None)?;
        }
    }
    Ok(())
}

fn put_bound(marks: &mut Vec<Mark>, bound: Option<u64>) -> Result<(), AllocError>
    ensures { OnOk result (marks.new.items ≡ marks.old.items ++ bound_marks bound) }
{
    if let Some(bound) = bound {
        marks.push(None)?;
        marks.push(told(!(1 <= bound && bound <= 16), Reason::Limit))?;
    }
    Ok(())
}

fn new_object_mark(before: &[Name], count: usize, name: Name) -> Mark
    ensures { result ≡ (told (nat_le 16 count) Limit or_else told (is_among before.now name) Taken) }
{
    if 16 <= count {
        Some(Reason::Limit)
    } else {
        told(is_among(before, name), Reason::Taken)
    }
}

fn put_objects(marks: &mut Vec<Mark>, names: &[Name]) -> Result<(), AllocError>
    ensures { OnOk result (marks.new.items ≡ marks.old.items ++ objects_marks names.now) }
{
    'names: for (i, name) in names.iter().enumerate() {
        put(marks, new_object_mark(&names[..i], i, *name))?;
    }
    Ok(())
}

fn is_tabled(prime: u64) -> bool
    ensures { result ≡ is_tabled prime }
{
    match u32::try_from(prime) {
        Ok(prime) => Field::from_prime(prime).is_some(),
        Err(_) => false,
    }
}

/// The mark of a number that is to be a prime of the table.
pub fn prime_mark(prime: u64) -> Mark
    ensures { result ≡ told (not (is_tabled prime)) Prime }
{
    told(!is_tabled(prime), Reason::Prime)
}

/// Puts the marks of the first two lines of a block behind these parts, which may be one too many.
pub fn put_head(
    marks: &mut Vec<Mark>,
    full: bool,
    parts: &[Part],
    block: &Block,
) -> Result<(), AllocError>
    ensures { OnOk result (marks.new.items ≡ marks.old.items ++ head_marks full parts.now block.now) }
{
    marks.push(told(full, Reason::Limit))?;
    marks.push(told(has_block(parts, block.name), Reason::Taken))?;
    marks.push(None)?;
    marks.push(prime_mark(block.prime))?;
    put_bound(marks, block.bound)?;
    marks.push(None)?;
    marks.push(None)?;
    put_objects(marks, block.objects.as_slice())?;
    marks.push(None)?;
    Ok(())
}

fn has_units(lines: &[BlockLine], objects: &[Name]) -> bool
    ensures { result ≡ list_all (λ x. list_any (is_unit_of x) lines.now) objects.now }
{
    objects.iter().all(|object| has_unit(lines, *object))
}

fn lacks_unit(block: &Block) -> bool
    ensures { result ≡ lacks_unit block.now }
{
    block.bound.is_none() && !has_units(block.lines.as_slice(), block.objects.as_slice())
}

/// Puts the marks of the last line of a block.
pub fn put_end(marks: &mut Vec<Mark>, block: &Block) -> Result<(), AllocError>
    ensures { OnOk result (marks.new.items ≡ marks.old.items ++ end_marks block.now) }
{
    marks.push(told(lacks_unit(block), Reason::Sort))?;
    marks.push(None)?;
    Ok(())
}
