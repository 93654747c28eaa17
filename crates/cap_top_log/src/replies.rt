// Replies as they are written.
ghost use Rattle.std.specs.Prelude.{◌≡◌, ◌++◌, OnOk};
ghost use Rattle.std.specs.Fmt.{decimal};
ghost use Rattle.cap_top_log.specs.Log.{value_text, registered_text, choice_text, reply_text};

use crate::values::{push_object, push_value};
use cap_data::{MorData, ObjData};
use cap_history::{Event, Reply, Told};
use cap_names::NoMemory;
use cap_ops::Choice;
use cap_top_text::{push_number, push_operation, push_text};
use std::alloc::Global;

/// Writes a word and a number.
fn push_counted(alloc: Global, out: &mut Vec<u8>, word: &str, number: u64) -> Result<(), NoMemory>
    ensures { OnOk result (out.new.items ≡ out.old.items ++ (word.now ++ decimal number)) }
{
    push_text(out, word)?;
    push_number(alloc, out, number)
}

/// Writes a word and a value.
fn push_told(
    alloc: Global,
    out: &mut Vec<u8>,
    word: &str,
    told: &Told<ObjData, MorData>,
) -> Result<(), NoMemory>
    ensures { OnOk result (out.new.items ≡ out.old.items ++ (word.now ++ value_text told.now.value)) }
{
    push_text(out, word)?;
    push_value(alloc, out, &told.value)
}

/// Writes the operation that an event registers.
fn push_registered(out: &mut Vec<u8>, event: &Event<ObjData, MorData>) -> Result<(), NoMemory>
    ensures { OnOk result (out.new.items ≡ out.old.items ++ registered_text event.now) }
{
    match event {
        Event::Register { op, .. } => push_operation(out, *op),
        _ => Ok(()),
    }
}

/// Writes what the plan does an operation by.
fn push_choice(alloc: Global, out: &mut Vec<u8>, choice: Choice) -> Result<(), NoMemory>
    ensures { OnOk result (out.new.items ≡ out.old.items ++ choice_text choice) }
{
    match choice {
        Choice::Prim => push_text(out, "prim"),
        Choice::Rule(rule) => push_counted(alloc, out, "rule ", rule.0 as u64),
        Choice::Missing => push_text(out, "missing"),
    }
}

/// Writes the reply to an event.
pub fn push_reply(
    alloc: Global,
    out: &mut Vec<u8>,
    event: &Event<ObjData, MorData>,
    reply: &Reply<ObjData, MorData>,
) -> Result<(), NoMemory>
    ensures { OnOk result (out.new.items ≡ out.old.items ++ reply_text event.now reply.now) }
{
    match reply {
        Reply::Done => push_text(out, "done"),
        Reply::Final(_) => push_text(out, "final"),
        Reply::Object(handle) => push_object(alloc, out, *handle),
        Reply::Hit(told) => push_told(alloc, out, "hit ", told),
        Reply::Miss(choice) => {
            push_text(out, "miss ")?;
            push_choice(alloc, out, *choice)
        }
        Reply::Kept(told) => push_told(alloc, out, "kept ", told),
        Reply::Found(told) => push_told(alloc, out, "found ", told),
        Reply::PlanIs(_) => push_text(out, "plan"),
        Reply::AlreadyFinal { at } => push_counted(alloc, out, "AlreadyFinal ", *at as u64),
        Reply::NotFinal => push_text(out, "NotFinal"),
        Reply::NotOffered => {
            push_text(out, "NotOffered ")?;
            push_registered(out, event)
        }
        Reply::Twice { weight } => push_counted(alloc, out, "Twice ", *weight as u64),
        Reply::NameTaken { handle, .. } => {
            push_text(out, "NameTaken ")?;
            push_object(alloc, out, *handle)
        }
    }
}
