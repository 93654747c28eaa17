// Literals of matrices.

ghost use Rattle.std.specs.Prelude.{◌≡◌};
ghost use Rattle.cap_reading.specs.Steps.{many, with_front};
ghost use Rattle.cap_reading.specs.Reading.{Gives};
ghost use Rattle.cap_grammar.specs.declared.symbol.Fixed.TheVariants as word;
ghost use Rattle.cap_literals.specs.Reading.{is, starts_int, starts_entry, int_at, ints_at, entry_at, row_at, next_row_at, rows_at};

use crate::scalars::int_of;
use crate::tokens::{expect, starts, starts_entry, starts_int};
use cap_grammar::{EntryTok, Fixed, IntTok, RowsTok, Symbol};
use cap_names::Items;
use cap_reading::ReadError;
use std::alloc::Global;

type Ints<'a> = Result<(Items<IntTok>, &'a [Symbol]), ReadError<'a, Symbol>>;

type Row<'a> = Result<(Items<EntryTok>, &'a [Symbol]), ReadError<'a, Symbol>>;

type Rows<'a> = Result<(Items<Items<EntryTok>>, &'a [Symbol]), ReadError<'a, Symbol>>;

fn more_ints(ints: Items<IntTok>, symbols: &[Symbol]) -> Ints<'_>
    ensures { Gives (λ x. (x.0, x.1.now)) result (with_front ints (many starts_int int_at symbols.now)) }
{
    let mut ints = ints;
    let mut rest = symbols;
    'ints: while starts_int(rest) {
        let (int, after) = int_of(rest)?;
        ints.push(int)?;
        rest = after;
    }
    Ok((ints, rest))
}

#[tactic(auto, unfolding(crate::specs::Reading::ints_at))]
fn ints_of(alloc: Global, symbols: &[Symbol]) -> Ints<'_>
    ensures { Gives (λ x. (x.0, x.1.now)) result (ints_at symbols.now) }
{
    more_ints(Items::new(Vec::new(alloc)), symbols)
}

#[tactic(auto, unfolding(crate::specs::Reading::entry_at))]
fn entry_of(
    alloc: Global,
    symbols: &[Symbol],
) -> Result<(EntryTok, &[Symbol]), ReadError<'_, Symbol>>
    ensures { Gives (λ x. (x.0, x.1.now)) result (entry_at symbols.now) }
{
    if starts(Fixed::OpenRound, symbols) {
        let rest = expect(Fixed::OpenRound, symbols)?;
        let (coeffs, rest) = ints_of(alloc, rest)?;
        let rest = expect(Fixed::CloseRound, rest)?;
        return Ok((EntryTok::Coeffs(coeffs), rest));
    }
    let (int, rest) = int_of(symbols)?;
    Ok((EntryTok::Int(int), rest))
}

fn more_entries(alloc: Global, row: Items<EntryTok>, symbols: &[Symbol]) -> Row<'_>
    ensures { Gives (λ x. (x.0, x.1.now)) result (with_front row (many starts_entry entry_at symbols.now)) }
{
    let mut row = row;
    let mut rest = symbols;
    'entries: while starts_entry(rest) {
        let (entry, after) = entry_of(alloc, rest)?;
        row.push(entry)?;
        rest = after;
    }
    Ok((row, rest))
}

#[tactic(auto, unfolding(crate::specs::Reading::row_at))]
fn row_of(alloc: Global, symbols: &[Symbol]) -> Row<'_>
    ensures { Gives (λ x. (x.0, x.1.now)) result (row_at symbols.now) }
{
    let (first, rest) = entry_of(alloc, symbols)?;
    let mut row = Items::new(Vec::new(alloc));
    row.push(first)?;
    more_entries(alloc, row, rest)
}

#[tactic(auto, unfolding(crate::specs::Reading::next_row_at))]
fn next_row_of(alloc: Global, symbols: &[Symbol]) -> Row<'_>
    ensures { Gives (λ x. (x.0, x.1.now)) result (next_row_at symbols.now) }
{
    let rest = expect(Fixed::Semicolon, symbols)?;
    row_of(alloc, rest)
}

fn more_rows(alloc: Global, rows: Items<Items<EntryTok>>, symbols: &[Symbol]) -> Rows<'_>
    ensures { Gives (λ x. (x.0, x.1.now)) result (with_front rows (many (is word.Semicolon) next_row_at symbols.now)) }
{
    let mut rows = rows;
    let mut rest = symbols;
    'rows: while starts(Fixed::Semicolon, rest) {
        let (row, after) = next_row_of(alloc, rest)?;
        rows.push(row)?;
        rest = after;
    }
    Ok((rows, rest))
}

/// A matrix by its rows, and what is behind it: `[]` has no row, and a row has an entry at least.
#[tactic(auto, unfolding(crate::specs::Reading::rows_at))]
pub fn rows_of(
    alloc: Global,
    symbols: &[Symbol],
) -> Result<(RowsTok, &[Symbol]), ReadError<'_, Symbol>>
    ensures { Gives (λ x. (x.0, x.1.now)) result (rows_at symbols.now) }
{
    let rest = expect(Fixed::Open, symbols)?;
    let mut rows = Items::new(Vec::new(alloc));
    if starts(Fixed::Close, rest) {
        let rest = expect(Fixed::Close, rest)?;
        return Ok((RowsTok { rows }, rest));
    }
    let (first, rest) = row_of(alloc, rest)?;
    rows.push(first)?;
    let (rows, rest) = more_rows(alloc, rows, rest)?;
    let rest = expect(Fixed::Close, rest)?;
    Ok((RowsTok { rows }, rest))
}
