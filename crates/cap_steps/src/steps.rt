// What steps that call nothing answer.
ghost use Rattle.std.specs.Prelude.{◌≡◌, ◌-◌, ◌<◌, ℕ, List, [], ◌∷◌, IfOk, MatchOption, Some, true};
ghost use Rattle.cap_names.specs.declared.identifiers.Handle.{Handle};
ghost use Rattle.cap_ops.specs.Values.{none, morphism};
ghost use Rattle.cap_ops.specs.Arrows.{Between, over, between, argument, arguments};
ghost use Rattle.cap_terms.specs.Run.{at, all_at, has_none, is_none, source_of, target_of, part_of, exists_of, both_of, when_of, tuple_of};
ghost use Rattle.cap_steps.specs.Slots.{slot_value, slots, IsArgument, AreArguments, plain};

use crate::slots::{Slot, argument_of_slot, copy_slot, slot_of_argument};
use cap_keys::copy_arrow;
use cap_names::NoMemory;
use cap_ops::{Arg, Arrow, Datum};
use cap_terms::{Step, Var};
use std::alloc::Global;

#[tactic(auto, using(crate::proofs::SlotsAt::at_slots))]
fn look<'a, M: Datum>(env: &'a [Slot<M>], x: Var) -> Option<&'a Slot<M>>
    ensures { MatchOption result (at (slots env.now) x ≡ none) (λ s. at (slots env.now) x ≡ slot_value s.now) }
{
    env.get(usize::from(x.0))
}

fn source<M: Datum>(slot: &Slot<M>) -> Slot<M>
    ensures { (p : ℕ) → slot_value result ≡ source_of (over p) (slot_value slot.now) }
{
    match slot {
        Slot::Morphism(f) => Slot::Object(f.src),
        _ => Slot::Nothing,
    }
}

fn target<M: Datum>(slot: &Slot<M>) -> Slot<M>
    ensures { (p : ℕ) → slot_value result ≡ target_of (over p) (slot_value slot.now) }
{
    match slot {
        Slot::Morphism(f) => Slot::Object(f.tgt),
        _ => Slot::Nothing,
    }
}

fn part<M: Datum>(alloc: Global, slot: &Slot<M>, n: u8) -> Result<Slot<M>, NoMemory>
    ensures { IfOk result (λ s. slot_value s ≡ part_of (slot_value slot.now) n) }
{
    let found = match slot {
        Slot::Two(p, q) => match n {
            1 => p,
            2 => q,
            _ => return Ok(Slot::Nothing),
        },
        Slot::Four(p, q, r, s) => match n {
            1 => p,
            2 => q,
            3 => r,
            4 => s,
            _ => return Ok(Slot::Nothing),
        },
        _ => return Ok(Slot::Nothing),
    };
    Ok(Slot::Morphism(copy_arrow(alloc, found)?))
}

fn exists<M: Datum>(slot: &Slot<M>) -> Slot<M>
    ensures { slot_value result ≡ exists_of (slot_value slot.now) }
{
    match slot {
        Slot::Nothing => Slot::Truth(false),
        _ => Slot::Truth(true),
    }
}

fn both<M: Datum>(a: &Slot<M>, b: &Slot<M>) -> Slot<M>
    ensures { slot_value result ≡ both_of (slot_value a.now) (slot_value b.now) }
{
    match (a, b) {
        (Slot::Truth(x), Slot::Truth(y)) => Slot::Truth(*x && *y),
        _ => Slot::Nothing,
    }
}

fn when<M: Datum>(alloc: Global, a: &Slot<M>, b: &Slot<M>) -> Result<Slot<M>, NoMemory>
    ensures { IfOk result (λ s. slot_value s ≡ when_of (slot_value a.now) (slot_value b.now)) }
{
    match a {
        Slot::Truth(true) => copy_slot(alloc, b),
        _ => Ok(Slot::Nothing),
    }
}

fn morphism_at<'a, M: Datum>(env: &'a [Slot<M>], x: Var) -> Option<&'a Arrow<M>>
    ensures { MatchOption result ((f : Between Handle M) → at (slots env.now) x ≡ morphism f → ⊥) (λ f. at (slots env.now) x ≡ morphism (between f.now)) }
{
    match look(env, x) {
        Some(Slot::Morphism(f)) => Some(f),
        _ => None,
    }
}

fn pair<M: Datum>(alloc: Global, env: &[Slot<M>], x: Var, y: Var) -> Result<Slot<M>, NoMemory>
    ensures { IfOk result (λ s. slot_value s ≡ tuple_of (at (slots env.now) x ∷ at (slots env.now) y ∷ [])) }
{
    let Some(p) = morphism_at(env, x) else {
        return Ok(Slot::Nothing);
    };
    let Some(q) = morphism_at(env, y) else {
        return Ok(Slot::Nothing);
    };
    Ok(Slot::Two(copy_arrow(alloc, p)?, copy_arrow(alloc, q)?))
}

fn quadruple<M: Datum>(
    alloc: Global,
    env: &[Slot<M>],
    x: Var,
    y: Var,
    z: Var,
    w: Var,
) -> Result<Slot<M>, NoMemory>
    ensures { IfOk result (λ s. slot_value s ≡ tuple_of (at (slots env.now) x ∷ at (slots env.now) y ∷ at (slots env.now) z ∷ at (slots env.now) w ∷ [])) }
{
    let Some(p) = morphism_at(env, x) else {
        return Ok(Slot::Nothing);
    };
    let Some(q) = morphism_at(env, y) else {
        return Ok(Slot::Nothing);
    };
    let Some(r) = morphism_at(env, z) else {
        return Ok(Slot::Nothing);
    };
    let Some(s) = morphism_at(env, w) else {
        return Ok(Slot::Nothing);
    };
    let first = copy_arrow(alloc, p)?;
    let second = copy_arrow(alloc, q)?;
    let third = copy_arrow(alloc, r)?;
    let fourth = copy_arrow(alloc, s)?;
    Ok(Slot::Four(first, second, third, fourth))
}

#[tactic(auto, using(crate::proofs::SlotsAt::pair_of, crate::proofs::SlotsAt::quadruple_of, crate::proofs::SlotsAt::no_tuple))]
fn tuple<M: Datum>(alloc: Global, env: &[Slot<M>], xs: &[Var]) -> Result<Slot<M>, NoMemory>
    ensures { IfOk result (λ s. slot_value s ≡ tuple_of (all_at (slots env.now) xs.now)) }
{
    if xs.len() == 2 {
        return pair(alloc, env, xs[0], xs[1]);
    }
    if xs.len() == 4 {
        return quadruple(alloc, env, xs[0], xs[1], xs[2], xs[3]);
    }
    Ok(Slot::Nothing)
}

/// The value of a variable.
pub fn copy_at<M: Datum>(alloc: Global, env: &[Slot<M>], x: Var) -> Result<Slot<M>, NoMemory>
    ensures { IfOk result (λ s. slot_value s ≡ at (slots env.now) x) }
{
    match look(env, x) {
        None => Ok(Slot::Nothing),
        Some(slot) => copy_slot(alloc, slot),
    }
}

fn source_at<M: Datum>(env: &[Slot<M>], x: Var) -> Slot<M>
    ensures { (p : ℕ) → slot_value result ≡ source_of (over p) (at (slots env.now) x) }
{
    match look(env, x) {
        None => Slot::Nothing,
        Some(slot) => source(slot),
    }
}

fn target_at<M: Datum>(env: &[Slot<M>], x: Var) -> Slot<M>
    ensures { (p : ℕ) → slot_value result ≡ target_of (over p) (at (slots env.now) x) }
{
    match look(env, x) {
        None => Slot::Nothing,
        Some(slot) => target(slot),
    }
}

#[tactic(auto, using(crate::proofs::SlotsAt::part_none))]
fn part_at<M: Datum>(alloc: Global, env: &[Slot<M>], x: Var, n: u8) -> Result<Slot<M>, NoMemory>
    ensures { IfOk result (λ s. slot_value s ≡ part_of (at (slots env.now) x) n) }
{
    match look(env, x) {
        None => Ok(Slot::Nothing),
        Some(slot) => part(alloc, slot, n),
    }
}

fn exists_at<M: Datum>(env: &[Slot<M>], x: Var) -> Slot<M>
    ensures { slot_value result ≡ exists_of (at (slots env.now) x) }
{
    match look(env, x) {
        None => Slot::Truth(false),
        Some(slot) => exists(slot),
    }
}

fn both_at<M: Datum>(env: &[Slot<M>], x: Var, y: Var) -> Slot<M>
    ensures { slot_value result ≡ both_of (at (slots env.now) x) (at (slots env.now) y) }
{
    let Some(first) = look(env, x) else {
        return Slot::Nothing;
    };
    let Some(second) = look(env, y) else {
        return Slot::Nothing;
    };
    both(first, second)
}

fn when_at<M: Datum>(alloc: Global, env: &[Slot<M>], x: Var, y: Var) -> Result<Slot<M>, NoMemory>
    ensures { IfOk result (λ s. slot_value s ≡ when_of (at (slots env.now) x) (at (slots env.now) y)) }
{
    let Some(first) = look(env, x) else {
        return Ok(Slot::Nothing);
    };
    let Some(second) = look(env, y) else {
        return Ok(Slot::Nothing);
    };
    when(alloc, first, second)
}

fn is_nothing<M: Datum>(env: &[Slot<M>], x: Var) -> bool
    ensures { result ≡ is_none (at (slots env.now) x) }
{
    matches!(look(env, x), None | Some(Slot::Nothing))
}

fn argument_at<M: Datum>(alloc: Global, env: &[Slot<M>], x: Var) -> Result<Arg<M>, NoMemory>
    requires { IsArgument (at (slots env.now) x) }
    ensures { IfOk result (λ a. argument a ≡ at (slots env.now) x) }
{
    match look(env, x) {
        None => unreachable!(),
        Some(slot) => argument_of_slot(alloc, slot),
    }
}

/// What a step that calls nothing answers.
pub fn plain_step<M: Datum>(
    alloc: Global,
    prime: u16,
    step: &Step,
    env: &[Slot<M>],
) -> Result<Slot<M>, NoMemory>
    requires { 0 < prime }
    ensures { IfOk result (λ s. slot_value s ≡ plain (over prime) step.now (slots env.now)) }
{
    match step {
        Step::Call { .. } => Ok(Slot::Nothing),
        Step::Src(x) => Ok(source_at(env, *x)),
        Step::Tgt(x) => Ok(target_at(env, *x)),
        Step::Part { of, n } => part_at(alloc, env, *of, *n),
        Step::MinusOne => Ok(Slot::Scalar(prime - 1)),
        Step::Exists(x) => Ok(exists_at(env, *x)),
        Step::Both(x, y) => Ok(both_at(env, *x, *y)),
        Step::When(x, y) => when_at(alloc, env, *x, *y),
        Step::Tuple(xs) => tuple(alloc, env, xs.as_slice()),
    }
}

/// Whether one of the variables is none.
pub fn any_nothing<M: Datum>(env: &[Slot<M>], xs: &[Var]) -> bool
    ensures { result ≡ has_none (all_at (slots env.now) xs.now) }
{
    for x in xs {
        if is_nothing(env, *x) {
            return true;
        }
    }
    false
}

/// The variables as arguments.
pub fn arguments_at<M: Datum>(
    alloc: Global,
    env: &[Slot<M>],
    xs: &[Var],
) -> Result<Vec<Arg<M>>, NoMemory>
    requires { AreArguments (all_at (slots env.now) xs.now) }
    ensures { IfOk result (λ args. arguments args.items ≡ all_at (slots env.now) xs.now) }
{
    let mut args = Vec::new(alloc);
    for x in xs {
        args.push(argument_at(alloc, env, *x)?)?;
    }
    Ok(args)
}

/// The arguments as the values of parameters.
pub fn parameters<M: Datum>(alloc: Global, args: &[Arg<M>]) -> Result<Vec<Slot<M>>, NoMemory>
    ensures { IfOk result (λ env. slots env.items ≡ arguments args.now) }
{
    let mut env = Vec::new(alloc);
    for arg in args {
        env.push(slot_of_argument(alloc, arg)?)?;
    }
    Ok(env)
}
