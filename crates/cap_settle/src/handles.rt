// Handles for the new objects of an answer.
ghost use Rattle.std.specs.Prelude.{◌≡◌, IfOk, map};
ghost use Rattle.std.specs.List.{All};
ghost use Rattle.cap_settle.specs.Settled.{settled_end, settled_arrow, settled, EndFits, ArrowFits, OutFits};

use cap_names::{Handle, Items, NoMemory};
use cap_ops::{Arrow, Datum, End, Out, OutArrow, Value};
use std::alloc::Global;

fn settled_end(count: u32, end: End) -> Handle
    requires { EndFits count end }
    ensures { result ≡ settled_end count end }
{
    match end {
        End::Old(h) => h,
        End::New(place) => Handle(count + place),
    }
}

fn settled_arrow<M: Datum>(alloc: Global, count: u32, f: &OutArrow<M>) -> Result<Arrow<M>, NoMemory>
    requires { ArrowFits count f.now }
    ensures { IfOk result (λ g. g ≡ settled_arrow count f.now) }
{
    let value = f.value.copy(alloc)?;
    Ok(Arrow {
        src: settled_end(count, f.src),
        tgt: settled_end(count, f.tgt),
        value,
    })
}

fn settled_arrows<M: Datum>(
    alloc: Global,
    count: u32,
    arrows: &[OutArrow<M>],
) -> Result<Vec<Arrow<M>>, NoMemory>
    requires { All (ArrowFits count) arrows.now }
    ensures { IfOk result (λ all. all.items ≡ map (settled_arrow count) arrows.now) }
{
    let mut all = Vec::new(alloc);
    for f in arrows {
        all.push(settled_arrow(alloc, count, f)?)?;
    }
    Ok(all)
}

/// The value of an answer where this many objects were told before, and its new objects have the next handles in order.
pub fn settle<M: Datum>(alloc: Global, count: u32, out: &Out<M>) -> Result<Value<M>, NoMemory>
    requires { OutFits count out.now }
    ensures { IfOk result (λ v. v ≡ settled count out.now) }
{
    match out {
        Out::One(f) => Ok(Value::One(settled_arrow(alloc, count, f)?)),
        Out::Many(arrows) => {
            let all = settled_arrows(alloc, count, arrows.as_slice())?;
            Ok(Value::Many(Items::new(all)))
        }
        Out::Truth(b) => Ok(Value::Truth(*b)),
        Out::Nothing => Ok(Value::Nothing),
    }
}
