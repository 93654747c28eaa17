// Calls: ask, run the choice, put.
ghost use Rattle.std.specs.Prelude.{◌≡◌, [], ◌∷◌};
ghost use Rattle.cap_ops.specs.Arrows.{over, arguments};
ghost use Rattle.cap_ops.specs.Ends.{IsOperation};
ghost use Rattle.cap_ops.specs.Mismatches.{HaveSorts};
ghost use Rattle.cap_ops.specs.Primitives.{prime_of};
ghost use Rattle.cap_ops.specs.Told.{Known};
ghost use Rattle.cap_ops.specs.Values.{Fits};
ghost use Rattle.cap_terms.specs.Typing.{Typed};
ghost use Rattle.cap_steps.specs.Slots.{slot_value, slots};
ghost use Rattle.cap_board.specs.Board.{BoardState, Grows, MayPut};
ghost use Rattle.cap_board.specs.Call.{Ready, Chosen, CallSays, BodySaysSlot, StepFits, StepSaysSlot, PutEnds};

use cap_board::{Asked, Board, CallRefusal, PutAnswer};
use cap_keys::copy_arguments;
use cap_laws::CatFault;
use cap_names::{Items, NoMemory, OpId, TooLarge};
use cap_ops::{Arg, Choice, Key, Offer, PrimOut, Value, ends_fit};
use cap_steps::{
    Slot, any_nothing, arguments_at, copy_at, out_of_slot, parameters, plain_step, slot_of_value,
};
use cap_terms::{Rule, RuleSet, Step};
use std::alloc::Global;

/// The value of an operation on arguments, with the asks and puts that it makes.
pub fn call<C: Offer, B: Board<C>>(
    alloc: Global,
    board: &mut B,
    offer: &C,
    rules: &RuleSet,
    op: OpId,
    args: &[Arg<C::M>],
) -> Result<Value<C::M>, CallRefusal>
    requires sorts { HaveSorts op.0 args.now }
    requires ready { Ready (B.state board.old) offer.now rules.now }
    requires known { Known (C.offered offer.now).category (B.told board.old) (arguments args.now) }
    requires holds { B.holds board.old }
    ensures holds { B.holds board.new }
    ensures onward { B.onward board.old board.new }
    ensures grows { Grows (B.state board.old) (B.told board.old) (B.state board.new) (B.told board.new) }
    ensures says { CallSays (C.offered offer.now) (B.state board.old) (B.state board.new) (B.told board.new) op.0 args.now result }
{
    let key = Key {
        op,
        args: Items::new(copy_arguments(alloc, args)?),
    };
    value_of_key(alloc, board, offer, rules, &key)
}

/// The value of a key.
#[cycle(eval)]
fn value_of_key<C: Offer, B: Board<C>>(
    alloc: Global,
    board: &mut B,
    offer: &C,
    rules: &RuleSet,
    key: &Key<C::M>,
) -> Result<Value<C::M>, CallRefusal>
    requires sorts { HaveSorts key.now.op.0 key.now.args }
    requires ready { Ready (B.state board.old) offer.now rules.now }
    requires known { Known (C.offered offer.now).category (B.told board.old) (arguments key.now.args) }
    requires holds { B.holds board.old }
    ensures holds { B.holds board.new }
    ensures onward { B.onward board.old board.new }
    ensures grows { Grows (B.state board.old) (B.told board.old) (B.state board.new) (B.told board.new) }
    ensures says { CallSays (C.offered offer.now) (B.state board.old) (B.state board.new) (B.told board.new) key.now.op.0 key.now.args result }
{
    match ends_fit(key.op, key.args.as_slice()) {
        Err(mismatch) => return Err(CallRefusal::Mismatch(mismatch)),
        Ok(()) => {}
    }
    match board.ask(alloc, key)? {
        Asked::Hit(value) => Ok(value),
        Asked::NotFinal => Err(CallRefusal::NotFinal),
        Asked::Full { entries, cells } => Err(CallRefusal::Full { entries, cells }),
        Asked::Miss(Choice::Missing) => Err(CallRefusal::Missing { op: key.op }),
        Asked::Miss(Choice::Prim) => {
            match offer.prim(alloc, key.op, key.args.as_slice(), board) {
                Ok(out) => put_value::<C, B>(alloc, board, key, out),
                Err(CatFault::TooLarge { rows, cols }) => {
                    Err(CallRefusal::TooLarge(TooLarge { rows, cols }))
                }
                Err(CatFault::NoMemory) => Err(CallRefusal::NoMemory),
            }
        }
        Asked::Miss(Choice::Rule(number)) => {
            let rule = rules.rule(number);
            let slot = run_rule(alloc, board, offer, rules, rule, key.args.as_slice())?;
            let out = PrimOut {
                fresh: Items::new(Vec::new(alloc)),
                out: out_of_slot(alloc, slot)?,
            };
            put_value::<C, B>(alloc, board, key, out)
        }
    }
}

/// What the put of a result answers.
fn put_value<C: Offer, B: Board<C>>(
    alloc: Global,
    board: &mut B,
    key: &Key<C::M>,
    out: PrimOut<C::O, C::M>,
) -> Result<Value<C::M>, CallRefusal>
    requires fits { Fits (over (prime_of (C.offered (B.state board.old).offer))) key.now.op.0 (arguments key.now.args) }
    requires known { Known (C.offered (B.state board.old).offer).category (B.told board.old) (arguments key.now.args) }
    requires may { MayPut (C.offered (B.state board.old).offer) (B.state board.old) (B.told board.old) key.now.op.0 key.now.args out }
    requires holds { B.holds board.old }
    ensures holds { B.holds board.new }
    ensures onward { B.onward board.old board.new }
    ensures grows { Grows (B.state board.old) (B.told board.old) (B.state board.new) (B.told board.new) }
    ensures says { PutEnds (C.offered (B.state board.old).offer) (B.state board.old) (B.told board.old) key.now.op.0 key.now.args out (B.state board.new) (B.told board.new) result }
{
    match board.put(alloc, key, out)? {
        PutAnswer::Entry(value) => Ok(value),
        PutAnswer::Full { entries, cells } => Err(CallRefusal::Full { entries, cells }),
    }
}

/// The answer of a rule's body.
#[cycle(eval)]
fn run_rule<C: Offer, B: Board<C>>(
    alloc: Global,
    board: &mut B,
    offer: &C,
    rules: &RuleSet,
    rule: &Rule,
    args: &[Arg<C::M>],
) -> Result<Slot<C::M>, CallRefusal>
    requires typed { Typed rule.now.cost.head.0 rule.now.body }
    requires fits { Fits (over (prime_of (C.offered offer.now))) rule.now.cost.head.0 (arguments args.now) }
    requires ready { Ready (B.state board.old) offer.now rules.now }
    requires chosen { Chosen (C.offered offer.now) (B.state board.old) rule.now.cost.head.0 rule.now.body.steps }
    requires known { Known (C.offered offer.now).category (B.told board.old) (arguments args.now) }
    requires holds { B.holds board.old }
    ensures holds { B.holds board.new }
    ensures onward { B.onward board.old board.new }
    ensures grows { Grows (B.state board.old) (B.told board.old) (B.state board.new) (B.told board.new) }
    ensures says { BodySaysSlot (C.offered offer.now) (B.state board.old) (B.state board.new) (B.told board.new) rule.now (arguments args.now) result }
{
    let mut env = parameters(alloc, args)?;
    for step in rule.body.steps.as_slice() {
        let value = run_step(alloc, board, offer, rules, rule.cost.head, step, &env)?;
        env.push(value)?;
    }
    Ok(copy_at(alloc, &env, rule.body.answer)?)
}

/// The value of one step of a body.
#[cycle(eval)]
fn run_step<C: Offer, B: Board<C>>(
    alloc: Global,
    board: &mut B,
    offer: &C,
    rules: &RuleSet,
    head: OpId,
    step: &Step,
    env: &[Slot<C::M>],
) -> Result<Slot<C::M>, CallRefusal>
    requires head { IsOperation head.0 }
    requires fits { StepFits (prime_of (C.offered offer.now)) step.now (slots env.now) }
    requires ready { Ready (B.state board.old) offer.now rules.now }
    requires chosen { Chosen (C.offered offer.now) (B.state board.old) head.0 (step.now ∷ []) }
    requires known { Known (C.offered offer.now).category (B.told board.old) (slots env.now) }
    requires holds { B.holds board.old }
    ensures holds { B.holds board.new }
    ensures onward { B.onward board.old board.new }
    ensures grows { Grows (B.state board.old) (B.told board.old) (B.state board.new) (B.told board.new) }
    ensures says { StepSaysSlot (C.offered offer.now) (B.state board.old) (B.state board.new) (B.told board.new) head.0 step.now (slots env.now) result }
{
    match step {
        Step::Call { op, args } => {
            if any_nothing(env, args.as_slice()) {
                return Ok(Slot::Nothing);
            }
            let key = Key {
                op: *op,
                args: Items::new(arguments_at(alloc, env, args.as_slice())?),
            };
            let value = value_of_key(alloc, board, offer, rules, &key)?;
            Ok(slot_of_value(value))
        }
        _ => Ok(plain_step(alloc, offer.field().prime() as u16, step, env)?),
    }
}
