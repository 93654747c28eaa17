//! Reading what stands before the sessions.

ghost use Rattle.std.specs.Prelude.{◌≡◌};
ghost use Rattle.cap_reading.specs.Steps.{begins};
ghost use Rattle.cap_reading.specs.Reading.{Gives};
ghost use Rattle.cap_parser.specs.Blocks.{over_at, category_at, starts_part, part_at};

use crate::blocks::{quiver_of, table_of};
use crate::commands::{command_of, starts_command};
use cap_grammar::{Fixed, Item, MorTok, ObjTok, Over, Symbol};
use cap_literals::{expect, name_of, number_of, starts};
use cap_reading::ReadError;
use std::alloc::Global;

type Part = Item<ObjTok, MorTok>;

type Read<'a, T> = Result<(T, &'a [Symbol]), ReadError<'a, Symbol>>;

#[tactic(auto, unfolding(crate::specs::Blocks::over_at))]
fn over_of(symbols: &[Symbol]) -> Read<'_, Over>
    ensures { Gives (λ x. (x.0, x.1.now)) result (over_at symbols.now) }
{
    if starts(Fixed::Vec, symbols) {
        let rest = expect(Fixed::Vec, symbols)?;
        let (prime, rest) = number_of(rest)?;
        return Ok((Over::Vec(prime), rest));
    }
    if starts(Fixed::Add, symbols) {
        let rest = expect(Fixed::Add, symbols)?;
        return match name_of(rest) {
            Ok((table, rest)) => Ok((Over::Add(table), rest)),
            Err(error) => Err(error),
        };
    }
    if starts(Fixed::Freyd, symbols) {
        let rest = expect(Fixed::Freyd, symbols)?;
        return match name_of(rest) {
            Ok((table, rest)) => Ok((Over::Freyd(table), rest)),
            Err(error) => Err(error),
        };
    }
    let rest = expect(Fixed::Rep, symbols)?;
    match name_of(rest) {
        Ok((table, rest)) => Ok((Over::Rep(table), rest)),
        Err(error) => Err(error),
    }
}

#[tactic(auto, unfolding(crate::specs::Blocks::category_at))]
fn category_of(symbols: &[Symbol]) -> Read<'_, Part>
    ensures { Gives (λ x. (x.0, x.1.now)) result (category_at symbols.now) }
{
    let rest = expect(Fixed::Category, symbols)?;
    let (name, rest) = match name_of(rest) {
        Ok(read) => read,
        Err(error) => return Err(error),
    };
    let (over, rest) = match over_of(rest) {
        Ok(read) => read,
        Err(error) => return Err(error),
    };
    let rest = expect(Fixed::Newline, rest)?;
    Ok((Item::Category { name, over }, rest))
}

/// Whether the symbols begin with a block, a category or a command.
pub fn starts_part(symbols: &[Symbol]) -> bool
    ensures { result ≡ begins starts_part symbols.now }
{
    starts(Fixed::Table, symbols)
        || starts(Fixed::Quiver, symbols)
        || starts(Fixed::Category, symbols)
        || starts_command(symbols)
}

/// A block, a category or a command, and what is behind it.
#[tactic(auto, unfolding(crate::specs::Blocks::part_at))]
pub fn part_of(alloc: Global, symbols: &[Symbol]) -> Read<'_, Part>
    ensures { Gives (λ x. (x.0, x.1.now)) result (part_at symbols.now) }
{
    if starts(Fixed::Table, symbols) {
        let (block, rest) = table_of(alloc, symbols)?;
        return Ok((Item::Block(block), rest));
    }
    if starts(Fixed::Quiver, symbols) {
        let (block, rest) = quiver_of(alloc, symbols)?;
        return Ok((Item::Block(block), rest));
    }
    if starts(Fixed::Category, symbols) {
        return category_of(symbols);
    }
    let (command, rest) = command_of(alloc, symbols)?;
    Ok((Item::Command(command), rest))
}
