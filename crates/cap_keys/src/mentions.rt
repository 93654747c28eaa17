// The objects that a value names.
ghost use Rattle.std.specs.Prelude.{◌≡◌, ◌≤◌, IfOk, length};
ghost use Rattle.cap_ops.specs.Mentions.{number_of, distinct, mentions, mentioned};
ghost use Rattle.cap_ops.specs.Once.{is_among};

use cap_names::{Handle, NoMemory};
use cap_ops::{Arrow, Value};
use std::alloc::Global;

fn mentions_of_arrows<M>(alloc: Global, arrows: &[Arrow<M>]) -> Result<Vec<Handle>, NoMemory>
    ensures { IfOk result (λ hs. hs.items ≡ mentions (Value.Many arrows.now)) }
{
    let mut all = Vec::new(alloc);
    for f in arrows {
        all.push(f.src)?;
        all.push(f.tgt)?;
    }
    Ok(all)
}

fn mentions<M>(alloc: Global, value: &Value<M>) -> Result<Vec<Handle>, NoMemory>
    ensures { IfOk result (λ hs. hs.items ≡ mentions value.now) }
{
    match value {
        Value::One(f) => {
            let mut all = Vec::new(alloc);
            all.push(f.src)?;
            all.push(f.tgt)?;
            Ok(all)
        }
        Value::Many(arrows) => mentions_of_arrows(alloc, arrows.as_slice()),
        _ => Ok(Vec::new(alloc)),
    }
}

fn is_among(handles: &[Handle], h: Handle) -> bool
    ensures { result ≡ is_among number_of handles.now h }
{
    handles.iter().any(|k| k.0 == h.0)
}

fn distinct(alloc: Global, handles: &[Handle]) -> Result<Vec<Handle>, NoMemory>
    ensures { IfOk result (λ hs. hs.items ≡ distinct handles.now) }
{
    let mut all = Vec::new(alloc);
    for i in 0..handles.len() {
        if !is_among(&handles[..i], handles[i]) {
            all.push(handles[i])?;
        }
    }
    Ok(all)
}

/// The handles of the objects that a value names, each once, in order of first mention.
pub fn mentioned<M>(alloc: Global, value: &Value<M>) -> Result<Vec<Handle>, NoMemory>
    ensures { IfOk result (λ hs. hs.items ≡ mentioned value.now) }
{
    let all = mentions(alloc, value)?;
    distinct(alloc, &all)
}
