// What is wrong in references and arguments.
ghost use Rattle.std.specs.Prelude.{◌≡◌, ◌↔◌, ◌++◌, IsTrue, OnOk, slice_get};
ghost use Rattle.cap_ops.specs.Ends.{IsOperation, operation_arguments, operation_answer, padded};
ghost use Rattle.cap_block_faults.specs.Marks.{each};
ghost use Rattle.cap_faults.specs.Commands.{value_of, object_ref, morphism_ref, any_ref, no_ref, part_mark, part_marks, ref_marks, ref_mark, arg_marks, arg_item, args_marks};

use crate::values::{Value, has_part, is_morphism, is_object, is_scalar, value_of};
use cap_block_faults::{Mark, put, put_int, told};
use cap_grammar::{ArgTok, RefTok};
use cap_names::{Name, OpId, Reason};
use cap_ops::{Sort, signature};
use std::alloc::AllocError;

fn object_ref(cat: Name, part: Option<u64>, value: &Option<Value>) -> Mark
    ensures { result ≡ object_ref cat part value.now }
{
    match value {
        None => Some(Reason::Known),
        Some(value) => {
            let right = value.cat == cat && is_object(value.sort) && !part.is_some();
            told(!right, Reason::Sort)
        }
    }
}

fn morphism_ref(cat: Name, part: Option<u64>, value: &Option<Value>) -> Mark
    ensures { result ≡ morphism_ref cat part value.now }
{
    match value {
        None => Some(Reason::Known),
        Some(value) => {
            let right = value.cat == cat && (part.is_some() || is_morphism(value.sort));
            told(!right, Reason::Sort)
        }
    }
}

fn any_ref(part: Option<u64>, value: &Option<Value>) -> Mark
    ensures { result ≡ any_ref part value.now }
{
    match value {
        None => Some(Reason::Known),
        Some(value) => told(!(part.is_some() || is_morphism(value.sort)), Reason::Sort),
    }
}

fn no_ref(value: &Option<Value>) -> Mark
    ensures { result ≡ no_ref value.now }
{
    match value {
        None => Some(Reason::Known),
        Some(_) => Some(Reason::Sort),
    }
}

fn part_mark(value: &Option<Value>, part: u64) -> Mark
    ensures { result ≡ part_mark value.now part }
{
    match value {
        None => None,
        Some(value) => told(!has_part(value.sort, part), Reason::Sort),
    }
}

fn put_part(
    marks: &mut Vec<Mark>,
    value: &Option<Value>,
    part: Option<u64>,
) -> Result<(), AllocError>
    ensures { OnOk result (marks.new.items ≡ marks.old.items ++ part_marks value.now part) }
{
    if let Some(part) = part {
        marks.push(None)?;
        marks.push(part_mark(value, part))?;
    }
    Ok(())
}

/// Puts the marks of a reference to an object of the category.
pub fn put_object_ref(
    marks: &mut Vec<Mark>,
    values: &[Value],
    cat: Name,
    reference: RefTok,
) -> Result<(), AllocError>
    ensures { OnOk result (marks.new.items ≡ marks.old.items ++ ref_marks values.now (object_ref cat) reference) }
{
    let value = value_of(values, reference.name);
    marks.push(object_ref(cat, reference.part, &value))?;
    put_part(marks, &value, reference.part)?;
    Ok(())
}

/// Puts the marks of a reference to a morphism of any category.
pub fn put_any_ref(
    marks: &mut Vec<Mark>,
    values: &[Value],
    reference: RefTok,
) -> Result<(), AllocError>
    ensures { OnOk result (marks.new.items ≡ marks.old.items ++ ref_marks values.now any_ref reference) }
{
    let value = value_of(values, reference.name);
    marks.push(any_ref(reference.part, &value))?;
    put_part(marks, &value, reference.part)?;
    Ok(())
}

fn ref_mark(cat: Name, wanted: Option<Sort>, part: Option<u64>, value: &Option<Value>) -> Mark
    ensures { result ≡ ref_mark cat wanted part value.now }
{
    match wanted {
        Some(Sort::Obj) => object_ref(cat, part, value),
        Some(Sort::Mor) => morphism_ref(cat, part, value),
        _ => no_ref(value),
    }
}

fn put_ref(
    marks: &mut Vec<Mark>,
    values: &[Value],
    cat: Name,
    wanted: Option<Sort>,
    reference: RefTok,
) -> Result<(), AllocError>
    ensures { OnOk result (marks.new.items ≡ marks.old.items ++ ref_marks values.now (ref_mark cat wanted) reference) }
{
    let value = value_of(values, reference.name);
    marks.push(ref_mark(cat, wanted, reference.part, &value))?;
    put_part(marks, &value, reference.part)?;
    Ok(())
}

fn put_arg(
    marks: &mut Vec<Mark>,
    values: &[Value],
    cat: Name,
    wanted: Option<Sort>,
    arg: ArgTok,
) -> Result<(), AllocError>
    ensures { OnOk result (marks.new.items ≡ marks.old.items ++ arg_marks values.now cat wanted arg) }
{
    match arg {
        ArgTok::Ref(reference) => put_ref(marks, values, cat, wanted, reference),
        ArgTok::Int(integer) => { put_int(marks, told(!is_scalar(wanted), Reason::Sort), integer) }
    }
}

fn is_operation(op: OpId) -> bool
    ensures { IsTrue result ↔ IsOperation op.0 }
{
    1 <= op.0 && op.0 <= 44
}

fn argument_sorts(op: OpId) -> [Option<Sort>; 4]
    ensures { result ≡ padded (operation_arguments op.0) }
{
    if is_operation(op) {
        signature(op).args
    } else {
        [None, None, None, None]
    }
}

/// The sort of an operation's answer.
pub fn answer_sort(op: OpId) -> Sort
    ensures { result ≡ operation_answer op.0 }
{
    if is_operation(op) {
        signature(op).answer
    } else {
        Sort::Truth
    }
}

fn wanted_sort(op: OpId, place: usize) -> Option<Sort>
    ensures { result ≡ slice_get (operation_arguments op.0) place }
{
    let sorts = argument_sorts(op);
    if place < 4 { sorts[place] } else { None }
}

fn put_each_arg(
    marks: &mut Vec<Mark>,
    values: &[Value],
    cat: Name,
    op: OpId,
    args: &[ArgTok],
) -> Result<(), AllocError>
    ensures { OnOk result (marks.new.items ≡ marks.old.items ++ each (arg_item values.now cat op.0) args.now) }
{
    'list: for (i, arg) in args.iter().enumerate() {
        put_arg(marks, values, cat, wanted_sort(op, i), *arg)?;
    }
    Ok(())
}

/// Puts the marks of the arguments of an operation, and of the token behind them.
pub fn put_args(
    marks: &mut Vec<Mark>,
    values: &[Value],
    cat: Name,
    op: OpId,
    args: &[ArgTok],
) -> Result<(), AllocError>
    ensures { OnOk result (marks.new.items ≡ marks.old.items ++ args_marks values.now cat op.0 args.now) }
{
    put_each_arg(marks, values, cat, op, args)?;
    let too_few = wanted_sort(op, args.len()).is_some();
    put(marks, told(too_few, Reason::Sort))?;
    Ok(())
}
