//! Reading commands.

ghost use Rattle.std.specs.Prelude.{◌≡◌};
ghost use Rattle.cap_reading.specs.Steps.{begins, many, with_front, optional};
ghost use Rattle.cap_reading.specs.Reading.{Gives};
ghost use Rattle.cap_literals.specs.Reading.{is_number, number_at, starts_arg, arg_at};
ghost use Rattle.cap_parser.specs.Commands.{is_operation, starts_command, register_at, finalise_at, plan_at, object_command_at, args_at, call_at, literal_at, value_at, src_at, tgt_at, inside_at, bound_at, let_at, new_bound, command_at};

use crate::lets::{Bound, Value};
use cap_grammar::{ArgTok, Command, Fixed, MorTok, ObjTok, Symbol};
use cap_literals::{
    arg_of, expect, is, morphism_of, name_of, number_of, object_of, operation_of, ref_of, starts,
    starts_arg, starts_number,
};
use cap_names::{Items, Name};
use cap_reading::ReadError;
use std::alloc::Global;

type Cmd = Command<ObjTok, MorTok>;

type Read<'a, T> = Result<(T, &'a [Symbol]), ReadError<'a, Symbol>>;

fn weight_of(symbols: &[Symbol]) -> Read<'_, Option<u64>>
    ensures { Gives (λ x. (x.0, x.1.now)) result (optional is_number number_at symbols.now) }
{
    if starts_number(symbols) {
        let (weight, rest) = number_of(symbols)?;
        return Ok((Some(weight), rest));
    }
    Ok((None, symbols))
}

#[tactic(auto, unfolding(crate::specs::Commands::register_at))]
fn register_of(symbols: &[Symbol]) -> Read<'_, Cmd>
    ensures { Gives (λ x. (x.0, x.1.now)) result (register_at symbols.now) }
{
    let rest = expect(Fixed::Register, symbols)?;
    let (cat, rest) = match name_of(rest) {
        Ok(read) => read,
        Err(error) => return Err(error),
    };
    let (op, rest) = operation_of(rest)?;
    let (weight, rest) = weight_of(rest)?;
    let rest = expect(Fixed::Newline, rest)?;
    Ok((Command::Register { cat, op, weight }, rest))
}

#[tactic(auto, unfolding(crate::specs::Commands::finalise_at))]
fn finalise_of(symbols: &[Symbol]) -> Read<'_, Cmd>
    ensures { Gives (λ x. (x.0, x.1.now)) result (finalise_at symbols.now) }
{
    let rest = expect(Fixed::Finalise, symbols)?;
    let (cat, rest) = match name_of(rest) {
        Ok(read) => read,
        Err(error) => return Err(error),
    };
    let rest = expect(Fixed::Newline, rest)?;
    Ok((Command::Finalise { cat }, rest))
}

#[tactic(auto, unfolding(crate::specs::Commands::plan_at))]
fn plan_of(symbols: &[Symbol]) -> Read<'_, Cmd>
    ensures { Gives (λ x. (x.0, x.1.now)) result (plan_at symbols.now) }
{
    let rest = expect(Fixed::Plan, symbols)?;
    let (cat, rest) = match name_of(rest) {
        Ok(read) => read,
        Err(error) => return Err(error),
    };
    let rest = expect(Fixed::Newline, rest)?;
    Ok((Command::Plan { cat }, rest))
}

#[tactic(auto, unfolding(crate::specs::Commands::object_command_at))]
fn object_command_of(alloc: Global, symbols: &[Symbol]) -> Read<'_, Cmd>
    ensures { Gives (λ x. (x.0, x.1.now)) result (object_command_at symbols.now) }
{
    let rest = expect(Fixed::Object, symbols)?;
    let (cat, rest) = match name_of(rest) {
        Ok(read) => read,
        Err(error) => return Err(error),
    };
    let (name, rest) = match name_of(rest) {
        Ok(read) => read,
        Err(error) => return Err(error),
    };
    let rest = expect(Fixed::Equals, rest)?;
    let (lit, rest) = object_of(alloc, rest)?;
    let rest = expect(Fixed::Newline, rest)?;
    Ok((Command::Object { cat, name, lit }, rest))
}

fn more_args(args: Items<ArgTok>, symbols: &[Symbol]) -> Read<'_, Items<ArgTok>>
    ensures { Gives (λ x. (x.0, x.1.now)) result (with_front args (many starts_arg arg_at symbols.now)) }
{
    let mut args = args;
    let mut rest = symbols;
    'values: while starts_arg(rest) {
        let (arg, after) = match arg_of(rest) {
            Ok(read) => read,
            Err(error) => return Err(error),
        };
        args.push(arg)?;
        rest = after;
    }
    Ok((args, rest))
}

#[tactic(auto, unfolding(crate::specs::Commands::args_at))]
fn args_of(alloc: Global, symbols: &[Symbol]) -> Read<'_, Items<ArgTok>>
    ensures { Gives (λ x. (x.0, x.1.now)) result (args_at symbols.now) }
{
    more_args(Items::new(Vec::new(alloc)), symbols)
}

#[tactic(auto, unfolding(crate::specs::Commands::call_at))]
fn call_of(alloc: Global, symbols: &[Symbol]) -> Read<'_, Value>
    ensures { Gives (λ x. (x.0, x.1.now)) result (call_at symbols.now) }
{
    let (op, rest) = operation_of(symbols)?;
    let (args, rest) = args_of(alloc, rest)?;
    let rest = expect(Fixed::Newline, rest)?;
    Ok((Value::Call { op, args }, rest))
}

#[tactic(auto, unfolding(crate::specs::Commands::literal_at))]
fn literal_of(alloc: Global, symbols: &[Symbol]) -> Read<'_, Value>
    ensures { Gives (λ x. (x.0, x.1.now)) result (literal_at symbols.now) }
{
    let (src, rest) = match ref_of(symbols) {
        Ok(read) => read,
        Err(error) => return Err(error),
    };
    let rest = expect(Fixed::To, rest)?;
    let (tgt, rest) = match ref_of(rest) {
        Ok(read) => read,
        Err(error) => return Err(error),
    };
    let (lit, rest) = morphism_of(alloc, rest)?;
    let rest = expect(Fixed::Newline, rest)?;
    Ok((Value::Literal { src, tgt, lit }, rest))
}

fn starts_operation(symbols: &[Symbol]) -> bool
    ensures { result ≡ begins is_operation symbols.now }
{
    match symbols {
        [Symbol::Operation(_), ..] => true,
        _ => false,
    }
}

#[tactic(auto, unfolding(crate::specs::Commands::value_at))]
fn value_of(alloc: Global, symbols: &[Symbol]) -> Read<'_, Value>
    ensures { Gives (λ x. (x.0, x.1.now)) result (value_at symbols.now) }
{
    if starts_operation(symbols) {
        return call_of(alloc, symbols);
    }
    literal_of(alloc, symbols)
}

#[tactic(auto, unfolding(crate::specs::Commands::src_at))]
fn src_of(symbols: &[Symbol]) -> Read<'_, Bound>
    ensures { Gives (λ x. (x.0, x.1.now)) result (src_at symbols.now) }
{
    let rest = expect(Fixed::Src, symbols)?;
    let (of, rest) = match ref_of(rest) {
        Ok(read) => read,
        Err(error) => return Err(error),
    };
    let rest = expect(Fixed::Newline, rest)?;
    Ok((Bound::Src(of), rest))
}

#[tactic(auto, unfolding(crate::specs::Commands::tgt_at))]
fn tgt_of(symbols: &[Symbol]) -> Read<'_, Bound>
    ensures { Gives (λ x. (x.0, x.1.now)) result (tgt_at symbols.now) }
{
    let rest = expect(Fixed::Tgt, symbols)?;
    let (of, rest) = match ref_of(rest) {
        Ok(read) => read,
        Err(error) => return Err(error),
    };
    let rest = expect(Fixed::Newline, rest)?;
    Ok((Bound::Tgt(of), rest))
}

#[tactic(auto, unfolding(crate::specs::Commands::inside_at))]
fn inside_of(alloc: Global, symbols: &[Symbol]) -> Read<'_, Bound>
    ensures { Gives (λ x. (x.0, x.1.now)) result (inside_at symbols.now) }
{
    let (cat, rest) = match name_of(symbols) {
        Ok(read) => read,
        Err(error) => return Err(error),
    };
    let (value, rest) = value_of(alloc, rest)?;
    Ok((Bound::In { cat, value }, rest))
}

#[tactic(auto, unfolding(crate::specs::Commands::bound_at))]
fn bound_of(alloc: Global, symbols: &[Symbol]) -> Read<'_, Bound>
    ensures { Gives (λ x. (x.0, x.1.now)) result (bound_at symbols.now) }
{
    if starts(Fixed::Src, symbols) {
        return src_of(symbols);
    }
    if starts(Fixed::Tgt, symbols) {
        return tgt_of(symbols);
    }
    inside_of(alloc, symbols)
}

#[tactic(auto, unfolding(crate::specs::Commands::let_at))]
fn let_of(alloc: Global, symbols: &[Symbol]) -> Read<'_, Cmd>
    ensures { Gives (λ x. (x.0, x.1.now)) result (let_at symbols.now) }
{
    let rest = expect(Fixed::Let, symbols)?;
    let (name, rest) = match name_of(rest) {
        Ok(read) => read,
        Err(error) => return Err(error),
    };
    let rest = expect(Fixed::Equals, rest)?;
    let (bound, rest) = bound_of(alloc, rest)?;
    Ok((binding(name, bound), rest))
}

fn binding(name: Name, bound: Bound) -> Cmd
    ensures { result ≡ new_bound name bound }
{
    match bound {
        Bound::Src(of) => Command::Src { name, of },
        Bound::Tgt(of) => Command::Tgt { name, of },
        Bound::In { cat, value } => match value {
            Value::Call { op, args } => Command::Call {
                name,
                cat,
                op,
                args,
            },
            Value::Literal { src, tgt, lit } => Command::Let {
                name,
                cat,
                src,
                tgt,
                lit,
            },
        },
    }
}

/// A command, and what is behind it.
#[tactic(auto, unfolding(crate::specs::Commands::command_at))]
pub fn command_of(alloc: Global, symbols: &[Symbol]) -> Read<'_, Cmd>
    ensures { Gives (λ x. (x.0, x.1.now)) result (command_at symbols.now) }
{
    if starts(Fixed::Register, symbols) {
        return register_of(symbols);
    }
    if starts(Fixed::Finalise, symbols) {
        return finalise_of(symbols);
    }
    if starts(Fixed::Plan, symbols) {
        return plan_of(symbols);
    }
    if starts(Fixed::Object, symbols) {
        return object_command_of(alloc, symbols);
    }
    let_of(alloc, symbols)
}

/// Whether the symbols begin with a command.
pub fn starts_command(symbols: &[Symbol]) -> bool
    ensures { result ≡ begins starts_command symbols.now }
{
    match symbols {
        [first, ..] => {
            is(Fixed::Register, first)
                || is(Fixed::Finalise, first)
                || is(Fixed::Plan, first)
                || is(Fixed::Object, first)
                || is(Fixed::Let, first)
        }
        [] => false,
    }
}
