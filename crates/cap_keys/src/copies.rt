// Copies of keys, of values and of results.
ghost use Rattle.std.specs.Prelude.{◌≡◌, IfOk};

use cap_names::{Items, NoMemory};
use cap_ops::{Arg, Arrow, Datum, Key, Out, OutArrow, PrimOut, Value};
use std::alloc::Global;

/// An equal morphism.
pub fn copy_arrow<M: Datum>(alloc: Global, f: &Arrow<M>) -> Result<Arrow<M>, NoMemory>
    ensures { IfOk result (λ g. g ≡ f.now) }
{
    let value = f.value.copy(alloc)?;
    Ok(Arrow {
        src: f.src,
        tgt: f.tgt,
        value,
    })
}

fn copy_arrows<M: Datum>(alloc: Global, arrows: &[Arrow<M>]) -> Result<Vec<Arrow<M>>, NoMemory>
    ensures { IfOk result (λ copy. copy.items ≡ arrows.now) }
{
    let mut copy = Vec::new(alloc);
    for f in arrows {
        copy.push(copy_arrow(alloc, f)?)?;
    }
    Ok(copy)
}

/// An equal argument.
pub fn copy_argument<M: Datum>(alloc: Global, arg: &Arg<M>) -> Result<Arg<M>, NoMemory>
    ensures { IfOk result (λ a. a ≡ arg.now) }
{
    match arg {
        Arg::Obj(h) => Ok(Arg::Obj(*h)),
        Arg::Mor(f) => Ok(Arg::Mor(copy_arrow(alloc, f)?)),
        Arg::Num(n) => Ok(Arg::Num(*n)),
    }
}

/// Equal arguments.
pub fn copy_arguments<M: Datum>(alloc: Global, args: &[Arg<M>]) -> Result<Vec<Arg<M>>, NoMemory>
    ensures { IfOk result (λ copy. copy.items ≡ args.now) }
{
    let mut copy = Vec::new(alloc);
    for arg in args {
        copy.push(copy_argument(alloc, arg)?)?;
    }
    Ok(copy)
}

/// An equal key.
pub fn copy_key<M: Datum>(alloc: Global, key: &Key<M>) -> Result<Key<M>, NoMemory>
    ensures { IfOk result (λ k. k ≡ key.now) }
{
    Ok(Key {
        op: key.op,
        args: Items::new(copy_arguments(alloc, key.args.as_slice())?),
    })
}

/// An equal value.
pub fn copy_value<M: Datum>(alloc: Global, value: &Value<M>) -> Result<Value<M>, NoMemory>
    ensures { IfOk result (λ v. v ≡ value.now) }
{
    match value {
        Value::One(f) => Ok(Value::One(copy_arrow(alloc, f)?)),
        Value::Many(arrows) => {
            let copy = copy_arrows(alloc, arrows.as_slice())?;
            Ok(Value::Many(Items::new(copy)))
        }
        Value::Truth(b) => Ok(Value::Truth(*b)),
        Value::Nothing => Ok(Value::Nothing),
    }
}

/// Equal objects.
pub fn copy_objects<O: Datum>(alloc: Global, objects: &[O]) -> Result<Vec<O>, NoMemory>
    ensures { IfOk result (λ copy. copy.items ≡ objects.now) }
{
    let mut copy = Vec::new(alloc);
    for object in objects {
        copy.push(object.copy(alloc)?)?;
    }
    Ok(copy)
}

fn copy_out_arrow<M: Datum>(alloc: Global, f: &OutArrow<M>) -> Result<OutArrow<M>, NoMemory>
    ensures { IfOk result (λ g. g ≡ f.now) }
{
    let value = f.value.copy(alloc)?;
    Ok(OutArrow {
        src: f.src,
        tgt: f.tgt,
        value,
    })
}

fn copy_out_arrows<M: Datum>(
    alloc: Global,
    arrows: &[OutArrow<M>],
) -> Result<Vec<OutArrow<M>>, NoMemory>
    ensures { IfOk result (λ copy. copy.items ≡ arrows.now) }
{
    let mut copy = Vec::new(alloc);
    for f in arrows {
        copy.push(copy_out_arrow(alloc, f)?)?;
    }
    Ok(copy)
}

/// An equal answer.
pub fn copy_out<M: Datum>(alloc: Global, out: &Out<M>) -> Result<Out<M>, NoMemory>
    ensures { IfOk result (λ o. o ≡ out.now) }
{
    match out {
        Out::One(f) => Ok(Out::One(copy_out_arrow(alloc, f)?)),
        Out::Many(arrows) => {
            let copy = copy_out_arrows(alloc, arrows.as_slice())?;
            Ok(Out::Many(Items::new(copy)))
        }
        Out::Truth(b) => Ok(Out::Truth(*b)),
        Out::Nothing => Ok(Out::Nothing),
    }
}

/// An equal answer with equal new objects.
pub fn copy_result<O: Datum, M: Datum>(
    alloc: Global,
    given: &PrimOut<O, M>,
) -> Result<PrimOut<O, M>, NoMemory>
    ensures { IfOk result (λ g. g ≡ given.now) }
{
    let fresh = copy_objects(alloc, given.fresh.as_slice())?;
    Ok(PrimOut {
        fresh: Items::new(fresh),
        out: copy_out(alloc, &given.out)?,
    })
}
