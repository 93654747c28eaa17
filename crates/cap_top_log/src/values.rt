// Objects, morphisms and values as they are written, objects by their handles.
ghost use Rattle.std.specs.Prelude.{◌≡◌, ◌++◌, OnOk, map, codes};
ghost use Rattle.cap_top_text.specs.Data.{joined};
ghost use Rattle.cap_top_log.specs.Log.{object_text, arrow_text, value_text};

use cap_data::MorData;
use cap_names::{Handle, NoMemory};
use cap_ops::{Arrow, Value};
use cap_top_text::{push_morphism, push_number, push_text};
use std::alloc::Global;

/// Writes an object.
pub fn push_object(alloc: Global, out: &mut Vec<u8>, object: Handle) -> Result<(), NoMemory>
    ensures { OnOk result (out.new.items ≡ out.old.items ++ object_text object) }
{
    push_text(out, "#")?;
    push_number(alloc, out, object.0 as u64)
}

/// Writes a morphism.
pub fn push_arrow(alloc: Global, out: &mut Vec<u8>, arrow: &Arrow<MorData>) -> Result<(), NoMemory>
    ensures { OnOk result (out.new.items ≡ out.old.items ++ arrow_text arrow.now) }
{
    push_object(alloc, out, arrow.src)?;
    push_text(out, " -> ")?;
    push_object(alloc, out, arrow.tgt)?;
    push_text(out, " ")?;
    push_morphism(alloc, out, &arrow.value)
}

/// Writes the morphisms of a tuple.
fn push_tuple(alloc: Global, out: &mut Vec<u8>, arrows: &[Arrow<MorData>]) -> Result<(), NoMemory>
    ensures { OnOk result (out.new.items ≡ out.old.items ++ joined (codes " | ") (map arrow_text arrows.now)) }
{
    for i in 0..arrows.len() {
        let separator = if i == 0 { "" } else { " | " };
        push_text(out, separator)?;
        push_arrow(alloc, out, &arrows[i])?;
    }
    Ok(())
}

/// Writes a value.
pub fn push_value(alloc: Global, out: &mut Vec<u8>, value: &Value<MorData>) -> Result<(), NoMemory>
    ensures { OnOk result (out.new.items ≡ out.old.items ++ value_text value.now) }
{
    match value {
        Value::One(arrow) => push_arrow(alloc, out, arrow),
        Value::Many(arrows) => push_tuple(alloc, out, arrows.as_slice()),
        Value::Truth(truth) => push_text(out, if *truth { "true" } else { "false" }),
        Value::Nothing => push_text(out, "none"),
    }
}
