// What is wrong in a command, and what it binds.
ghost use Rattle.std.specs.Prelude.{◌≡◌, ◌++◌, ◌∷◌, [], OnOk, option_map, option_to_list};
ghost use Rattle.cap_names.specs.declared.reasons.Reason.TheVariants.{Limit};
ghost use Rattle.cap_ops.specs.declared.sorts.Sort.TheVariants.{Obj};
ghost use Rattle.cap_block_faults.specs.Marks.{told, free};
ghost use Rattle.cap_faults.specs.Commands.{value_of, new_name, category_mark, object_literal, morphism_literal, weight_marks, scope, binding, given_object, given_morphism, given_call, end_marks, command_marks, value, end_of, bound_by};

use crate::arguments::{answer_sort, put_any_ref, put_args, put_object_ref};
use crate::values::{Value, new_name, value_of};
use cap_block_faults::{Mark, Part, has_category, over_of, put, put_morphism, put_object, told};
use cap_grammar::{ArgTok, Command, MorTok, ObjTok, Over, RefTok};
use cap_names::{Name, OpId, Reason};
use cap_ops::Sort;
use std::alloc::AllocError;

fn category_mark(parts: &[Part], cat: Name) -> Mark
    ensures { result ≡ category_mark parts.now cat }
{
    told(!has_category(parts, cat), Reason::Known)
}

fn put_object_literal(
    marks: &mut Vec<Mark>,
    parts: &[Part],
    over: Option<Over>,
    lit: &ObjTok,
) -> Result<(), AllocError>
    ensures { OnOk result (marks.new.items ≡ marks.old.items ++ object_literal parts.now over lit.now) }
{
    match over {
        None => Ok(()),
        Some(over) => put_object(marks, parts, over, lit),
    }
}

fn put_morphism_literal(
    marks: &mut Vec<Mark>,
    parts: &[Part],
    over: Option<Over>,
    lit: &MorTok,
) -> Result<(), AllocError>
    ensures { OnOk result (marks.new.items ≡ marks.old.items ++ morphism_literal parts.now over lit.now) }
{
    match over {
        None => Ok(()),
        Some(over) => put_morphism(marks, parts, over, lit),
    }
}

fn put_weight(marks: &mut Vec<Mark>, weight: Option<u64>) -> Result<(), AllocError>
    ensures { OnOk result (marks.new.items ≡ marks.old.items ++ weight_marks weight) }
{
    if let Some(weight) = weight {
        marks.push(told(!(1 <= weight && weight <= 1_000_000), Reason::Limit))?;
    }
    Ok(())
}

fn put_binding(
    marks: &mut Vec<Mark>,
    full: bool,
    own: usize,
    values: &[Value],
    name: Name,
) -> Result<(), AllocError>
    ensures { OnOk result (marks.new.items ≡ marks.old.items ++ (told full Limit ∷ new_name own values.now name ∷ free ∷ [])) }
{
    marks.push(told(full, Reason::Limit))?;
    marks.push(new_name(own, values, name))?;
    marks.push(None)?;
    Ok(())
}

fn put_on_category(
    marks: &mut Vec<Mark>,
    full: bool,
    parts: &[Part],
    cat: Name,
) -> Result<(), AllocError>
    ensures { OnOk result (marks.new.items ≡ marks.old.items ++ (told full Limit ∷ category_mark parts.now cat ∷ [])) }
{
    marks.push(told(full, Reason::Limit))?;
    marks.push(category_mark(parts, cat))?;
    Ok(())
}

fn put_given_object(
    marks: &mut Vec<Mark>,
    full: bool,
    parts: &[Part],
    own: usize,
    values: &[Value],
    cat: Name,
    name: Name,
    lit: &ObjTok,
) -> Result<(), AllocError>
    ensures { OnOk result (marks.new.items ≡ marks.old.items ++ given_object (scope full parts.now own values.now) cat name lit.now) }
{
    marks.push(told(full, Reason::Limit))?;
    marks.push(category_mark(parts, cat))?;
    marks.push(new_name(own, values, name))?;
    marks.push(None)?;
    put_object_literal(marks, parts, over_of(parts, cat), lit)?;
    Ok(())
}

fn put_end_of(
    marks: &mut Vec<Mark>,
    full: bool,
    parts: &[Part],
    own: usize,
    values: &[Value],
    name: Name,
    of: RefTok,
) -> Result<(), AllocError>
    ensures { OnOk result (marks.new.items ≡ marks.old.items ++ end_marks (scope full parts.now own values.now) name of) }
{
    put_binding(marks, full, own, values, name)?;
    marks.push(None)?;
    put_any_ref(marks, values, of)?;
    Ok(())
}

fn put_given_morphism(
    marks: &mut Vec<Mark>,
    full: bool,
    parts: &[Part],
    own: usize,
    values: &[Value],
    cat: Name,
    src: RefTok,
    tgt: RefTok,
    lit: &MorTok,
) -> Result<(), AllocError>
    ensures { OnOk result (marks.new.items ≡ marks.old.items ++ given_morphism (scope full parts.now own values.now) cat src tgt lit.now) }
{
    marks.push(category_mark(parts, cat))?;
    put_object_ref(marks, values, cat, src)?;
    marks.push(None)?;
    put_object_ref(marks, values, cat, tgt)?;
    put_morphism_literal(marks, parts, over_of(parts, cat), lit)?;
    Ok(())
}

fn put_given_call(
    marks: &mut Vec<Mark>,
    full: bool,
    parts: &[Part],
    own: usize,
    values: &[Value],
    cat: Name,
    op: OpId,
    args: &[ArgTok],
) -> Result<(), AllocError>
    ensures { OnOk result (marks.new.items ≡ marks.old.items ++ given_call (scope full parts.now own values.now) cat op.0 args.now) }
{
    marks.push(category_mark(parts, cat))?;
    marks.push(None)?;
    put_args(marks, values, cat, op, args)?;
    Ok(())
}

/// Puts the marks of a command: whether it is one too many, the parts before it, how many names its scope has bound, and the values that are bound.
pub fn put_command(
    marks: &mut Vec<Mark>,
    full: bool,
    parts: &[Part],
    own: usize,
    values: &[Value],
    command: &Command<ObjTok, MorTok>,
) -> Result<(), AllocError>
    ensures { OnOk result (marks.new.items ≡ marks.old.items ++ command_marks (scope full parts.now own values.now) command.now) }
{
    match command {
        Command::Register { cat, op: _, weight } => {
            put_on_category(marks, full, parts, *cat)?;
            marks.push(None)?;
            put_weight(marks, *weight)
        }
        Command::Finalise { cat } | Command::Plan { cat } => {
            put_on_category(marks, full, parts, *cat)
        }
        Command::Object { cat, name, lit } => {
            put_given_object(marks, full, parts, own, values, *cat, *name, lit)
        }
        Command::Src { name, of } | Command::Tgt { name, of } => {
            put_end_of(marks, full, parts, own, values, *name, *of)
        }
        Command::Let {
            name,
            cat,
            src,
            tgt,
            lit,
        } => {
            put_binding(marks, full, own, values, *name)?;
            put_given_morphism(marks, full, parts, own, values, *cat, *src, *tgt, lit)
        }
        Command::Call {
            name,
            cat,
            op,
            args,
        } => {
            put_binding(marks, full, own, values, *name)?;
            put_given_call(marks, full, parts, own, values, *cat, *op, args.as_slice())
        }
    }
}

fn end_of(values: &[Value], name: Name, of: Name) -> Option<Value>
    ensures { result ≡ option_map (end_of name) (value_of values.now of) }
{
    match value_of(values, of) {
        Some(value) => Some(Value {
            name,
            cat: value.cat,
            sort: Sort::Obj,
        }),
        None => None,
    }
}

fn bound_by(values: &[Value], command: &Command<ObjTok, MorTok>) -> Option<Value>
    ensures { option_to_list result ≡ bound_by values.now command.now }
{
    match command {
        Command::Register { .. } | Command::Finalise { .. } | Command::Plan { .. } => None,
        Command::Object { cat, name, .. } => Some(Value {
            name: *name,
            cat: *cat,
            sort: Sort::Obj,
        }),
        Command::Src { name, of } | Command::Tgt { name, of } => end_of(values, *name, of.name),
        Command::Let { name, cat, .. } => Some(Value {
            name: *name,
            cat: *cat,
            sort: Sort::Mor,
        }),
        Command::Call { name, cat, op, .. } => Some(Value {
            name: *name,
            cat: *cat,
            sort: answer_sort(*op),
        }),
    }
}

/// Puts the value that a command binds, if it binds one, behind the others.
pub fn bind(values: &mut Vec<Value>, command: &Command<ObjTok, MorTok>) -> Result<(), AllocError>
    ensures { OnOk result (values.new.items ≡ values.old.items ++ bound_by values.old.items command.now) }
{
    if let Some(value) = bound_by(values, command) {
        values.push(value)?;
    }
    Ok(())
}
