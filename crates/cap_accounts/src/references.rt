// References, and the arguments of calls.
ghost use Rattle.std.specs.Prelude.{◌≡◌, ◌-◌, IfOk, IsSome, Some, slice_get, option_map};
ghost use Rattle.cap_accounts.specs.Commands.{object_at, arrow_at, argument_or, IsArgument, AreArguments};
ghost use Rattle.cap_checked.specs.Checked.{integer};
ghost use Rattle.cap_accounts.specs.Arguments.{HasValue, HaveValues};

use crate::lookups::answer_of;
use cap_field::Field;
use cap_grammar::{ArgTok, IntTok, RefTok};
use cap_names::{Handle, NoMemory};
use cap_ops::{Arg, Arrow, Datum};
use cap_report::{LineAnswer, Situation};
use std::alloc::Global;

/// The object that a reference names.
pub fn object_at<X, T, M>(situation: &Situation<X, T, M>, of: &RefTok) -> Option<Handle>
    ensures { result ≡ object_at situation.now of.now }
{
    match answer_of(situation, of.name) {
        Some(LineAnswer::Object(handle)) => Some(*handle),
        _ => None,
    }
}

/// The part of a tuple with this number, from 1.
fn part_of<M>(arrows: &[Arrow<M>], part: u64) -> Option<&Arrow<M>>
    ensures { option_map (λ f. f.now) result ≡ slice_get arrows.now (part - 1) }
{
    arrows.get(part.saturating_sub(1) as usize)
}

/// The morphism that a reference names, or the part of a tuple.
pub fn arrow_at<'a, X, T, M>(situation: &'a Situation<X, T, M>, of: &RefTok) -> Option<&'a Arrow<M>>
    ensures { option_map (λ f. f.now) result ≡ arrow_at situation.now of.now }
{
    match (answer_of(situation, of.name), of.part) {
        (Some(LineAnswer::Morphism(arrow)), None) => Some(arrow),
        (Some(LineAnswer::Tuple(arrows)), Some(part)) => part_of(arrows.as_slice(), part),
        _ => None,
    }
}

/// The integer of a token; digits past 63 bits stand as the largest of them.
fn integer(token: IntTok) -> i64
    ensures { result ≡ integer token }
{
    let digits = token.digits.min(9_223_372_036_854_775_807) as i64;
    if token.minus { -digits } else { digits }
}

/// The object or the morphism that a reference names, as an argument.
fn referred<X, T, M: Datum>(
    alloc: Global,
    situation: &Situation<X, T, M>,
    of: &RefTok,
) -> Result<Arg<M>, NoMemory>
    requires { IsSome (argument_or situation.now (object_at situation.now of.now) (arrow_at situation.now of.now)) }
    ensures { IfOk result (λ a. argument_or situation.now (object_at situation.now of.now) (arrow_at situation.now of.now) ≡ Some a) }
{
    if let Some(handle) = object_at(situation, of) {
        return Ok(Arg::Obj(handle));
    }
    match arrow_at(situation, of) {
        Some(arrow) => {
            let value = arrow.value.copy(alloc)?;
            Ok(Arg::Mor(Arrow {
                src: arrow.src,
                tgt: arrow.tgt,
                value,
            }))
        }
        None => unreachable!(),
    }
}

/// An argument: an object, a morphism, or the residue of an integer.
fn argument<X, T, M: Datum>(
    alloc: Global,
    situation: &Situation<X, T, M>,
    field: Field,
    token: &ArgTok,
) -> Result<Arg<M>, NoMemory>
    requires { HasValue situation.now token.now }
    ensures { IfOk result (λ a. IsArgument situation.now field token.now a) }
{
    match token {
        ArgTok::Ref(of) => referred(alloc, situation, of),
        ArgTok::Int(token) => Ok(Arg::Num(field.residue(integer(*token)))),
    }
}

#[tactic(auto, using(crate::proofs::OneMore::one_more, crate::proofs::OneMore::all_given))]
/// The arguments of a call, of which each reference names an object or a morphism.
pub fn arguments<X, T, M: Datum>(
    alloc: Global,
    situation: &Situation<X, T, M>,
    field: Field,
    tokens: &[ArgTok],
) -> Result<Vec<Arg<M>>, NoMemory>
    requires { HaveValues situation.now tokens.now }
    ensures { IfOk result (λ args. AreArguments situation.now field tokens.now args.items) }
{
    let mut args = Vec::new(alloc);
    'tokens: for token in tokens {
        args.push(argument(alloc, situation, field, token)?)?;
    }
    Ok(args)
}
