// The values of a body's variables.
ghost use Rattle.std.specs.Prelude.{◌≡◌, IfOk, Some, IsSome, map, List};
ghost use Rattle.cap_ops.specs.declared.arrows.End.TheVariants.{Old};
ghost use Rattle.cap_ops.specs.Arrows.{argument, arguments, old, out_value, tuple, between, value_of};
ghost use Rattle.cap_steps.specs.Slots.{slot_value, IsArgument, IsAnswer, IsTuple};

use cap_keys::copy_arrow;
use cap_names::{Handle, Items, NoMemory};
use cap_ops::{Arg, Arrow, Datum, End, Out, OutArrow, Value};
use std::alloc::Global;

/// The value of a variable: a parameter, or the answer of a step.
#[derive(Debug, Drop)]
pub enum Slot<M> {
    Object(Handle),
    Morphism(Arrow<M>),
    Two(Arrow<M>, Arrow<M>),
    Four(Arrow<M>, Arrow<M>, Arrow<M>, Arrow<M>),
    Truth(bool),
    Scalar(u16),
    Nothing,
}

pub fn copy_slot<M: Datum>(alloc: Global, slot: &Slot<M>) -> Result<Slot<M>, NoMemory>
    ensures { IfOk result (λ s. s ≡ slot.now) }
{
    match slot {
        Slot::Object(h) => Ok(Slot::Object(*h)),
        Slot::Morphism(f) => Ok(Slot::Morphism(copy_arrow(alloc, f)?)),
        Slot::Two(p, q) => Ok(Slot::Two(copy_arrow(alloc, p)?, copy_arrow(alloc, q)?)),
        Slot::Four(p, q, r, s) => {
            let first = copy_arrow(alloc, p)?;
            let second = copy_arrow(alloc, q)?;
            let third = copy_arrow(alloc, r)?;
            let fourth = copy_arrow(alloc, s)?;
            Ok(Slot::Four(first, second, third, fourth))
        }
        Slot::Truth(b) => Ok(Slot::Truth(*b)),
        Slot::Scalar(n) => Ok(Slot::Scalar(*n)),
        Slot::Nothing => Ok(Slot::Nothing),
    }
}

pub fn slot_of_argument<M: Datum>(alloc: Global, arg: &Arg<M>) -> Result<Slot<M>, NoMemory>
    ensures { IfOk result (λ s. slot_value s ≡ argument arg.now) }
{
    match arg {
        Arg::Obj(h) => Ok(Slot::Object(*h)),
        Arg::Mor(f) => Ok(Slot::Morphism(copy_arrow(alloc, f)?)),
        Arg::Num(n) => Ok(Slot::Scalar(*n)),
    }
}

pub fn argument_of_slot<M: Datum>(alloc: Global, slot: &Slot<M>) -> Result<Arg<M>, NoMemory>
    requires { IsArgument (slot_value slot.now) }
    ensures { IfOk result (λ a. argument a ≡ slot_value slot.now) }
{
    match slot {
        Slot::Object(h) => Ok(Arg::Obj(*h)),
        Slot::Morphism(f) => Ok(Arg::Mor(copy_arrow(alloc, f)?)),
        Slot::Scalar(n) => Ok(Arg::Num(*n)),
        Slot::Two(..) | Slot::Four(..) | Slot::Truth(_) | Slot::Nothing => unreachable!(),
    }
}

fn old_arrow<M>(f: Arrow<M>) -> OutArrow<M>
    ensures src { result.src ≡ Old f.src }
    ensures tgt { result.tgt ≡ Old f.tgt }
    ensures value { result.value ≡ f.value }
{
    OutArrow {
        src: End::Old(f.src),
        tgt: End::Old(f.tgt),
        value: f.value,
    }
}

pub fn out_of_slot<M: Datum>(alloc: Global, slot: Slot<M>) -> Result<Out<M>, NoMemory>
    requires { IsAnswer (slot_value slot) }
    ensures { IfOk result (λ out. out_value out ≡ Some (old (slot_value slot))) }
{
    match slot {
        Slot::Morphism(f) => Ok(Out::One(old_arrow(f))),
        Slot::Two(p, q) => {
            let mut arrows = Vec::new(alloc);
            arrows.push(old_arrow(p))?;
            arrows.push(old_arrow(q))?;
            Ok(Out::Many(Items::new(arrows)))
        }
        Slot::Four(p, q, r, s) => {
            let mut arrows = Vec::new(alloc);
            arrows.push(old_arrow(p))?;
            arrows.push(old_arrow(q))?;
            arrows.push(old_arrow(r))?;
            arrows.push(old_arrow(s))?;
            Ok(Out::Many(Items::new(arrows)))
        }
        Slot::Truth(b) => Ok(Out::Truth(b)),
        Slot::Nothing => Ok(Out::Nothing),
        Slot::Object(_) | Slot::Scalar(_) => unreachable!(),
    }
}

fn slot_of_arrows<M: Datum>(mut arrows: Vec<Arrow<M>>) -> Slot<M>
    requires { IsTuple arrows.items }
    ensures { tuple (map between arrows.items) ≡ Some (slot_value result) }
{
    let fourth = arrows.pop();
    let third = arrows.pop();
    let second = arrows.pop();
    let first = arrows.pop();
    match (first, second, third, fourth) {
        (Some(p), Some(q), Some(r), Some(s)) => Slot::Four(p, q, r, s),
        (None, None, Some(p), Some(q)) => Slot::Two(p, q),
        _ => Slot::Nothing,
    }
}

pub fn slot_of_value<M: Datum>(value: Value<M>) -> Slot<M>
    requires { IsSome (value_of value) }
    ensures { value_of value ≡ Some (slot_value result) }
{
    match value {
        Value::One(f) => Slot::Morphism(f),
        Value::Many(arrows) => slot_of_arrows(arrows.into_vec()),
        Value::Truth(b) => Slot::Truth(b),
        Value::Nothing => Slot::Nothing,
    }
}
