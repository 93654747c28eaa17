// Lists of names and paths.

ghost use Rattle.std.specs.Prelude.{◌≡◌};
ghost use Rattle.cap_reading.specs.Steps.{many, with_front};
ghost use Rattle.cap_reading.specs.Reading.{Gives};
ghost use Rattle.cap_grammar.specs.declared.symbol.Fixed.TheVariants as word;
ghost use Rattle.cap_literals.specs.Reading.{is, is_name, name_at, names_at, list_at, next_name_at, path_at};

use crate::tokens::{expect, name_of, starts, starts_name};
use cap_grammar::{Fixed, Symbol};
use cap_names::{Items, Name};
use cap_reading::ReadError;
use std::alloc::Global;

type Names<'a> = Result<(Items<Name>, &'a [Symbol]), ReadError<'a, Symbol>>;

fn more_names(names: Items<Name>, symbols: &[Symbol]) -> Names<'_>
    ensures { Gives (λ x. (x.0, x.1.now)) result (with_front names (many is_name name_at symbols.now)) }
{
    let mut names = names;
    let mut rest = symbols;
    'names: while starts_name(rest) {
        let (name, after) = match name_of(rest) {
            Ok(read) => read,
            Err(error) => return Err(error),
        };
        names.push(name)?;
        rest = after;
    }
    Ok((names, rest))
}

#[tactic(auto, unfolding(crate::specs::Reading::names_at))]
fn names_of(alloc: Global, symbols: &[Symbol]) -> Names<'_>
    ensures { Gives (λ x. (x.0, x.1.now)) result (names_at symbols.now) }
{
    more_names(Items::new(Vec::new(alloc)), symbols)
}

/// A list of names in brackets, and what is behind it.
#[tactic(auto, unfolding(crate::specs::Reading::list_at))]
pub fn list_of(alloc: Global, symbols: &[Symbol]) -> Names<'_>
    ensures { Gives (λ x. (x.0, x.1.now)) result (list_at symbols.now) }
{
    let rest = expect(Fixed::Open, symbols)?;
    let (names, rest) = names_of(alloc, rest)?;
    let rest = expect(Fixed::Close, rest)?;
    Ok((names, rest))
}

#[tactic(auto, unfolding(crate::specs::Reading::next_name_at))]
fn next_name_of(symbols: &[Symbol]) -> Result<(Name, &[Symbol]), ReadError<'_, Symbol>>
    ensures { Gives (λ x. (x.0, x.1.now)) result (next_name_at symbols.now) }
{
    let rest = expect(Fixed::Star, symbols)?;
    name_of(rest)
}

fn more_factors(names: Items<Name>, symbols: &[Symbol]) -> Names<'_>
    ensures { Gives (λ x. (x.0, x.1.now)) result (with_front names (many (is word.Star) next_name_at symbols.now)) }
{
    let mut names = names;
    let mut rest = symbols;
    'factors: while starts(Fixed::Star, rest) {
        let (name, after) = match next_name_of(rest) {
            Ok(read) => read,
            Err(error) => return Err(error),
        };
        names.push(name)?;
        rest = after;
    }
    Ok((names, rest))
}

/// A path, and what is behind it.
#[tactic(auto, unfolding(crate::specs::Reading::path_at))]
pub fn path_of(alloc: Global, symbols: &[Symbol]) -> Names<'_>
    ensures { Gives (λ x. (x.0, x.1.now)) result (path_at symbols.now) }
{
    let (first, rest) = match name_of(symbols) {
        Ok(read) => read,
        Err(error) => return Err(error),
    };
    let mut names = Items::new(Vec::new(alloc));
    names.push(first)?;
    more_factors(names, rest)
}
