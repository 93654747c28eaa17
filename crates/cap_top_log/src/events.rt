// Events as they are written.
ghost use Rattle.std.specs.Prelude.{◌≡◌, ◌++◌, OnOk, codes};
ghost use Rattle.std.specs.List.{flat_map};
ghost use Rattle.cap_top_log.specs.Log.{argument_text, key_text, event_text};

use crate::values::{push_arrow, push_object};
use cap_data::{MorData, ObjData};
use cap_history::Event;
use cap_names::NoMemory;
use cap_ops::{Arg, Key};
use cap_top_text::{push_number, push_operation, push_text};
use std::alloc::Global;

/// Writes an argument.
fn push_argument(alloc: Global, out: &mut Vec<u8>, argument: &Arg<MorData>) -> Result<(), NoMemory>
    ensures { OnOk result (out.new.items ≡ out.old.items ++ argument_text argument.now) }
{
    match argument {
        Arg::Obj(object) => push_object(alloc, out, *object),
        Arg::Mor(arrow) => {
            push_text(out, "(")?;
            push_arrow(alloc, out, arrow)?;
            push_text(out, ")")
        }
        Arg::Num(residue) => push_number(alloc, out, *residue as u64),
    }
}

/// Writes arguments, each behind a blank.
fn push_arguments(
    alloc: Global,
    out: &mut Vec<u8>,
    arguments: &[Arg<MorData>],
) -> Result<(), NoMemory>
    ensures { OnOk result (out.new.items ≡ out.old.items ++ flat_map (λ a. codes " " ++ argument_text a) arguments.now) }
{
    'arguments: for argument in arguments {
        push_text(out, " ")?;
        push_argument(alloc, out, argument)?;
    }
    Ok(())
}

/// Writes a key.
fn push_key(alloc: Global, out: &mut Vec<u8>, key: &Key<MorData>) -> Result<(), NoMemory>
    ensures { OnOk result (out.new.items ≡ out.old.items ++ key_text key.now) }
{
    push_operation(out, key.op)?;
    push_arguments(alloc, out, key.args.as_slice())
}

/// Writes an event.
pub fn push_event(
    alloc: Global,
    out: &mut Vec<u8>,
    event: &Event<ObjData, MorData>,
) -> Result<(), NoMemory>
    ensures { OnOk result (out.new.items ≡ out.old.items ++ event_text event.now) }
{
    match event {
        Event::Register { op, weight } => {
            push_text(out, "register ")?;
            push_operation(out, *op)?;
            push_text(out, " ")?;
            push_number(alloc, out, *weight as u64)
        }
        Event::Finalise => push_text(out, "finalise"),
        Event::Declare { name, .. } => {
            push_text(out, "declare ")?;
            push_text(out, name.as_str())
        }
        Event::Ask(key) => {
            push_text(out, "ask ")?;
            push_key(alloc, out, key)
        }
        Event::Put { key, .. } => {
            push_text(out, "put ")?;
            push_key(alloc, out, key)
        }
        Event::PlanOf => push_text(out, "plan"),
    }
}
