// Combinations and sums of paths.

ghost use Rattle.std.specs.Prelude.{◌≡◌};
ghost use Rattle.cap_reading.specs.Steps.{expect, many, with_front};
ghost use Rattle.cap_reading.specs.Reading.{Gives};
ghost use Rattle.cap_grammar.specs.declared.symbol.Fixed.TheVariants as word;
ghost use Rattle.cap_literals.specs.Reading.{is, is_nought, multiple_at, next_multiple_at, nought_multiple_at, behind_nought_at, combo_at, term_at, next_term_at, sum_at};

use crate::lists::path_of;
use crate::scalars::int_of;
use crate::tokens::{expect, name_of, starts, starts_name, starts_nought};
use cap_grammar::{Fixed, IntTok, Symbol, TermTok};
use cap_names::Items;
use cap_reading::ReadError;
use std::alloc::Global;

type Term<'a> = Result<(TermTok, &'a [Symbol]), ReadError<'a, Symbol>>;

type Terms<'a> = Result<(Items<TermTok>, &'a [Symbol]), ReadError<'a, Symbol>>;

#[tactic(auto, unfolding(crate::specs::Reading::multiple_at))]
fn multiple_of(alloc: Global, symbols: &[Symbol]) -> Term<'_>
    ensures { Gives (λ x. (x.0, x.1.now)) result (multiple_at symbols.now) }
{
    let (coeff, rest) = int_of(symbols)?;
    let (name, rest) = match name_of(rest) {
        Ok(read) => read,
        Err(error) => return Err(error),
    };
    let mut path = Items::new(Vec::new(alloc));
    path.push(name)?;
    Ok((TermTok { coeff, path }, rest))
}

#[tactic(auto, unfolding(crate::specs::Reading::next_multiple_at))]
fn next_multiple_of(alloc: Global, symbols: &[Symbol]) -> Term<'_>
    ensures { Gives (λ x. (x.0, x.1.now)) result (next_multiple_at symbols.now) }
{
    let rest = expect(Fixed::Plus, symbols)?;
    multiple_of(alloc, rest)
}

#[tactic(auto, unfolding(crate::specs::Reading::nought_multiple_at))]
fn nought_multiple_of(alloc: Global, symbols: &[Symbol]) -> Term<'_>
    ensures { Gives (λ x. (x.0, x.1.now)) result (nought_multiple_at symbols.now) }
{
    let (name, rest) = match name_of(symbols) {
        Ok(read) => read,
        Err(error) => return Err(error),
    };
    let mut path = Items::new(Vec::new(alloc));
    path.push(name)?;
    let coeff = IntTok {
        minus: false,
        digits: 0,
    };
    Ok((TermTok { coeff, path }, rest))
}

fn more_multiples(alloc: Global, terms: Items<TermTok>, symbols: &[Symbol]) -> Terms<'_>
    ensures { Gives (λ x. (x.0, x.1.now)) result (with_front terms (many (is word.Plus) next_multiple_at symbols.now)) }
{
    let mut terms = terms;
    let mut rest = symbols;
    'multiples: while starts(Fixed::Plus, rest) {
        let (term, after) = next_multiple_of(alloc, rest)?;
        terms.push(term)?;
        rest = after;
    }
    Ok((terms, rest))
}

fn expect_nought(symbols: &[Symbol]) -> Result<&[Symbol], ReadError<'_, Symbol>>
    ensures { Gives (λ x. x.now) result (expect is_nought symbols.now) }
{
    match symbols {
        [Symbol::Nought, rest @ ..] => Ok(rest),
        _ => Err(ReadError::Syntax(symbols)),
    }
}

#[tactic(auto, unfolding(crate::specs::Reading::behind_nought_at))]
fn behind_nought_of(alloc: Global, symbols: &[Symbol]) -> Terms<'_>
    ensures { Gives (λ x. (x.0, x.1.now)) result (behind_nought_at symbols.now) }
{
    let mut terms = Items::new(Vec::new(alloc));
    if starts_name(symbols) {
        let (first, rest) = nought_multiple_of(alloc, symbols)?;
        terms.push(first)?;
        return more_multiples(alloc, terms, rest);
    }
    Ok((terms, symbols))
}

/// A combination, and what is behind it: the token `0` with no name behind it is the empty one.
#[tactic(auto, unfolding(crate::specs::Reading::combo_at))]
pub fn combo_of(alloc: Global, symbols: &[Symbol]) -> Terms<'_>
    ensures { Gives (λ x. (x.0, x.1.now)) result (combo_at symbols.now) }
{
    if starts_nought(symbols) {
        let rest = expect_nought(symbols)?;
        return behind_nought_of(alloc, rest);
    }
    let (first, rest) = multiple_of(alloc, symbols)?;
    let mut terms = Items::new(Vec::new(alloc));
    terms.push(first)?;
    more_multiples(alloc, terms, rest)
}

#[tactic(auto, unfolding(crate::specs::Reading::term_at))]
fn term_of(alloc: Global, symbols: &[Symbol]) -> Term<'_>
    ensures { Gives (λ x. (x.0, x.1.now)) result (term_at symbols.now) }
{
    let (coeff, rest) = int_of(symbols)?;
    let (path, rest) = path_of(alloc, rest)?;
    Ok((TermTok { coeff, path }, rest))
}

#[tactic(auto, unfolding(crate::specs::Reading::next_term_at))]
fn next_term_of(alloc: Global, symbols: &[Symbol]) -> Term<'_>
    ensures { Gives (λ x. (x.0, x.1.now)) result (next_term_at symbols.now) }
{
    let rest = expect(Fixed::Plus, symbols)?;
    term_of(alloc, rest)
}

fn more_terms(alloc: Global, terms: Items<TermTok>, symbols: &[Symbol]) -> Terms<'_>
    ensures { Gives (λ x. (x.0, x.1.now)) result (with_front terms (many (is word.Plus) next_term_at symbols.now)) }
{
    let mut terms = terms;
    let mut rest = symbols;
    'terms: while starts(Fixed::Plus, rest) {
        let (term, after) = next_term_of(alloc, rest)?;
        terms.push(term)?;
        rest = after;
    }
    Ok((terms, rest))
}

/// A sum of multiples of paths, and what is behind it.
#[tactic(auto, unfolding(crate::specs::Reading::sum_at))]
pub fn sum_of(alloc: Global, symbols: &[Symbol]) -> Terms<'_>
    ensures { Gives (λ x. (x.0, x.1.now)) result (sum_at symbols.now) }
{
    let (first, rest) = term_of(alloc, symbols)?;
    let mut terms = Items::new(Vec::new(alloc));
    terms.push(first)?;
    more_terms(alloc, terms, rest)
}
