// Objects, values and refusals as they are written.
ghost use Rattle.std.specs.Prelude.{◌≡◌, ◌++◌, ◌∷◌, [], OnOk, map, codes};
ghost use Rattle.std.specs.Fmt.{decimal};
ghost use Rattle.cap_report.specs.declared.lines.LineRefusal.TheVariants.{Mismatch as mismatch_refusal};
ghost use Rattle.std.specs.List.{flat_map};
ghost use Rattle.cap_ops.specs.Told.{told_in};
ghost use Rattle.cap_top_text.specs.Values.{operation_text, mentions, ends_of, refusal_mentions, object_or_nothing, handle_text, new_object, new_objects, seen_behind, arrow_text, refusal_text, value_text};
ghost use Rattle.cap_top_text.specs.Data.{joined};

use crate::data::{push_morphism, push_number, push_object, push_text};
use crate::home::Home;
use crate::numbers::{has_seen, number_of, see};
use cap_data::{MorData, ObjData};
use cap_names::{Handle, Items, NoMemory, OpId, op_name};
use cap_ops::{Arrow, Mismatch};
use cap_report::{LineAnswer, LineRefusal};
use std::alloc::Global;

#[tactic(auto, using(crate::proofs::Named::op_named, crate::proofs::Named::op_past, crate::proofs::Named::op_zero))]
/// Writes the name of an operation.
pub fn push_operation(out: &mut Vec<u8>, op: OpId) -> Result<(), NoMemory>
    ensures { OnOk result (out.new.items ≡ out.old.items ++ operation_text op) }
{
    if 1 <= op.0 && op.0 <= 44 {
        push_text(out, op_name(op))?;
    }
    Ok(())
}

/// Writes a text and the name of an operation.
fn push_named(out: &mut Vec<u8>, label: &str, op: OpId) -> Result<(), NoMemory>
    ensures { OnOk result (out.new.items ≡ out.old.items ++ (label.now ++ operation_text op)) }
{
    push_text(out, label)?;
    push_operation(out, op)
}

/// Writes a text and a number.
fn push_labelled(alloc: Global, out: &mut Vec<u8>, label: &str, number: u64) -> Result<(), NoMemory>
    ensures { OnOk result (out.new.items ≡ out.old.items ++ (label.now ++ decimal number)) }
{
    push_text(out, label)?;
    push_number(alloc, out, number)
}

/// Writes an object by its number.
pub fn push_handle(
    alloc: Global,
    out: &mut Vec<u8>,
    home: &Home,
    seen: &[(usize, Handle)],
    object: Handle,
) -> Result<(), NoMemory>
    ensures { OnOk result (out.new.items ≡ out.old.items ++ handle_text home.now seen.now object) }
{
    push_text(out, home.name.as_str())?;
    push_labelled(alloc, out, "#", number_of(seen, home.number, object))
}

#[tactic(auto, using(crate::proofs::Told::told_some, crate::proofs::Told::told_none))]
/// Writes the data of the object with this handle.
fn push_told(
    alloc: Global,
    out: &mut Vec<u8>,
    objects: &[&ObjData],
    object: Handle,
) -> Result<(), NoMemory>
    ensures { OnOk result (out.new.items ≡ out.old.items ++ object_or_nothing (told_in (map (λ x. x.now) objects.now) object)) }
{
    match objects.get(object.0 as usize) {
        Some(data) => push_object(alloc, out, data),
        None => Ok(()),
    }
}

/// An object is mentioned: where it appears for the first time its line is written.
fn mention(
    alloc: Global,
    out: &mut Vec<u8>,
    home: &Home,
    objects: &[&ObjData],
    seen: &mut Items<(usize, Handle)>,
    object: Handle,
) -> Result<(), NoMemory>
    ensures text { OnOk result (out.new.items ≡ out.old.items ++ new_object home.now (map (λ x. x.now) objects.now) seen.old object) }
    ensures seen { OnOk result (seen.new ≡ seen_behind home.now seen.old (object ∷ [])) }
{
    if has_seen(seen.as_slice(), home.number, object) {
        return Ok(());
    }
    see(seen, home.number, object)?;
    push_handle(alloc, out, home, seen.as_slice(), object)?;
    push_text(out, ": ")?;
    push_told(alloc, out, objects, object)?;
    push_text(out, "\n")
}

/// The ends of a morphism are mentioned.
fn mention_ends(
    alloc: Global,
    out: &mut Vec<u8>,
    home: &Home,
    objects: &[&ObjData],
    seen: &mut Items<(usize, Handle)>,
    arrow: &Arrow<MorData>,
) -> Result<(), NoMemory>
    ensures text { OnOk result (out.new.items ≡ out.old.items ++ new_objects home.now (map (λ x. x.now) objects.now) seen.old (ends_of arrow.now)) }
    ensures seen { OnOk result (seen.new ≡ seen_behind home.now seen.old (ends_of arrow.now)) }
{
    mention(alloc, out, home, objects, seen, arrow.src)?;
    mention(alloc, out, home, objects, seen, arrow.tgt)
}

/// The ends of the morphisms of a tuple are mentioned.
fn mention_all(
    alloc: Global,
    out: &mut Vec<u8>,
    home: &Home,
    objects: &[&ObjData],
    seen: &mut Items<(usize, Handle)>,
    arrows: &[Arrow<MorData>],
) -> Result<(), NoMemory>
    ensures text { OnOk result (out.new.items ≡ out.old.items ++ new_objects home.now (map (λ x. x.now) objects.now) seen.old (flat_map ends_of arrows.now)) }
    ensures seen { OnOk result (seen.new ≡ seen_behind home.now seen.old (flat_map ends_of arrows.now)) }
{
    'arrows: for arrow in arrows {
        mention_ends(alloc, out, home, objects, seen, arrow)?;
    }
    Ok(())
}

/// The objects of a refusal are mentioned.
fn mention_refused(
    alloc: Global,
    out: &mut Vec<u8>,
    home: &Home,
    objects: &[&ObjData],
    seen: &mut Items<(usize, Handle)>,
    refusal: &LineRefusal,
) -> Result<(), NoMemory>
    ensures text { OnOk result (out.new.items ≡ out.old.items ++ new_objects home.now (map (λ x. x.now) objects.now) seen.old (refusal_mentions refusal.now)) }
    ensures seen { OnOk result (seen.new ≡ seen_behind home.now seen.old (refusal_mentions refusal.now)) }
{
    match refusal {
        LineRefusal::Mismatch(mismatch) => {
            mention(alloc, out, home, objects, seen, mismatch.left)?;
            mention(alloc, out, home, objects, seen, mismatch.right)
        }
        LineRefusal::NameTaken { handle } => mention(alloc, out, home, objects, seen, *handle),
        _ => Ok(()),
    }
}

/// The objects of an answer are mentioned.
pub fn mention_answer(
    alloc: Global,
    out: &mut Vec<u8>,
    home: &Home,
    objects: &[&ObjData],
    seen: &mut Items<(usize, Handle)>,
    answer: &LineAnswer<MorData>,
) -> Result<(), NoMemory>
    ensures text { OnOk result (out.new.items ≡ out.old.items ++ new_objects home.now (map (λ x. x.now) objects.now) seen.old (mentions answer.now)) }
    ensures seen { OnOk result (seen.new ≡ seen_behind home.now seen.old (mentions answer.now)) }
{
    match answer {
        LineAnswer::Object(handle) => mention(alloc, out, home, objects, seen, *handle),
        LineAnswer::Morphism(arrow) => mention_ends(alloc, out, home, objects, seen, arrow),
        LineAnswer::Tuple(arrows) => mention_all(
            alloc,
            out,
            home,
            objects,
            seen,
            arrows.as_slice(),
        ),
        LineAnswer::Refused(refusal) => mention_refused(alloc, out, home, objects, seen, refusal),
        _ => Ok(()),
    }
}

/// Writes a morphism.
fn push_arrow(
    alloc: Global,
    out: &mut Vec<u8>,
    home: &Home,
    seen: &[(usize, Handle)],
    arrow: &Arrow<MorData>,
) -> Result<(), NoMemory>
    ensures { OnOk result (out.new.items ≡ out.old.items ++ arrow_text home.now seen.now arrow.now) }
{
    push_handle(alloc, out, home, seen, arrow.src)?;
    push_text(out, " -> ")?;
    push_handle(alloc, out, home, seen, arrow.tgt)?;
    push_text(out, " ")?;
    push_morphism(alloc, out, &arrow.value)
}

/// Writes the morphisms of a tuple.
fn push_tuple(
    alloc: Global,
    out: &mut Vec<u8>,
    home: &Home,
    seen: &[(usize, Handle)],
    arrows: &[Arrow<MorData>],
) -> Result<(), NoMemory>
    ensures { OnOk result (out.new.items ≡ out.old.items ++ joined (codes " | ") (map (arrow_text home.now seen.now) arrows.now)) }
{
    for i in 0..arrows.len() {
        let separator = if i == 0 { "" } else { " | " };
        push_text(out, separator)?;
        push_arrow(alloc, out, home, seen, &arrows[i])?;
    }
    Ok(())
}

/// Writes a mismatch.
fn push_mismatch(
    alloc: Global,
    out: &mut Vec<u8>,
    home: &Home,
    seen: &[(usize, Handle)],
    mismatch: Mismatch,
) -> Result<(), NoMemory>
    ensures { OnOk result (out.new.items ≡ out.old.items ++ refusal_text home.now seen.now (mismatch_refusal mismatch)) }
{
    push_labelled(alloc, out, "Mismatch ", mismatch.place as u64)?;
    push_text(out, " ")?;
    push_handle(alloc, out, home, seen, mismatch.left)?;
    push_text(out, " ")?;
    push_handle(alloc, out, home, seen, mismatch.right)
}

/// Writes two numbers behind a word.
fn push_two(
    alloc: Global,
    out: &mut Vec<u8>,
    label: &str,
    first: u64,
    second: u64,
) -> Result<(), NoMemory>
    ensures { OnOk result (out.new.items ≡ out.old.items ++ (label.now ++ decimal first ++ codes " " ++ decimal second)) }
{
    push_labelled(alloc, out, label, first)?;
    push_labelled(alloc, out, " ", second)
}

/// Writes why a command is refused.
pub fn push_refusal(
    alloc: Global,
    out: &mut Vec<u8>,
    home: &Home,
    seen: &[(usize, Handle)],
    refusal: &LineRefusal,
) -> Result<(), NoMemory>
    ensures { OnOk result (out.new.items ≡ out.old.items ++ refusal_text home.now seen.now refusal.now) }
{
    match refusal {
        LineRefusal::Lacks { name } => {
            push_text(out, "Lacks ")?;
            push_text(out, name.as_str())
        }
        LineRefusal::Mismatch(mismatch) => push_mismatch(alloc, out, home, seen, *mismatch),
        LineRefusal::NotFinal => push_text(out, "NotFinal"),
        LineRefusal::AlreadyFinal { at } => push_labelled(alloc, out, "AlreadyFinal ", *at as u64),
        LineRefusal::NotOffered { op } => push_named(out, "NotOffered ", *op),
        LineRefusal::Twice { weight } => push_labelled(alloc, out, "Twice ", *weight as u64),
        LineRefusal::NameTaken { handle } => {
            push_text(out, "NameTaken ")?;
            push_handle(alloc, out, home, seen, *handle)
        }
        LineRefusal::Missing { op } => push_named(out, "Missing ", *op),
        LineRefusal::TooLarge(size) => {
            push_two(alloc, out, "TooLarge ", size.rows as u64, size.cols as u64)
        }
        LineRefusal::Shape { part } => push_labelled(alloc, out, "Shape ", *part as u64),
        LineRefusal::Full { entries, cells } => {
            push_two(alloc, out, "Full ", *entries as u64, *cells)
        }
    }
}

/// Writes a value.
pub fn push_value(
    alloc: Global,
    out: &mut Vec<u8>,
    home: &Home,
    seen: &[(usize, Handle)],
    answer: &LineAnswer<MorData>,
) -> Result<(), NoMemory>
    ensures { OnOk result (out.new.items ≡ out.old.items ++ value_text home.now seen.now answer.now) }
{
    match answer {
        LineAnswer::Object(handle) => push_handle(alloc, out, home, seen, *handle),
        LineAnswer::Morphism(arrow) => push_arrow(alloc, out, home, seen, arrow),
        LineAnswer::Tuple(arrows) => push_tuple(alloc, out, home, seen, arrows.as_slice()),
        LineAnswer::Truth(truth) => push_text(out, if *truth { "true" } else { "false" }),
        LineAnswer::Nothing => push_text(out, "none"),
        _ => Ok(()),
    }
}
