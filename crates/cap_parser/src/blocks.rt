//! Reading tables and quivers.

ghost use Rattle.std.specs.Prelude.{◌≡◌};
ghost use Rattle.cap_reading.specs.Steps.{begins, many, with_front};
ghost use Rattle.cap_reading.specs.Reading.{Gives};
ghost use Rattle.cap_literals.specs.Reading.{is_name, name_at};
ghost use Rattle.cap_parser.specs.Blocks.{three_names_at, basis_at, unit_at, product_at, starts_table_line, table_line_at, arrow_at, relation_at, starts_quiver_line, quiver_line_at, some_names_at, objects_at, table_lines_at, quiver_lines_at, table_head_at, table_at, quiver_head_at, quiver_at};

use cap_grammar::{Block, BlockLine, Fixed, Symbol};
use cap_literals::{combo_of, expect, is, name_of, number_of, starts, starts_name, sum_of};
use cap_names::{Items, Name};
use cap_reading::ReadError;
use std::alloc::Global;

type Read<'a, T> = Result<(T, &'a [Symbol]), ReadError<'a, Symbol>>;

#[tactic(auto, unfolding(crate::specs::Blocks::three_names_at))]
fn three_names_of(symbols: &[Symbol]) -> Read<'_, (Name, (Name, Name))>
    ensures { Gives (λ x. (x.0, x.1.now)) result (three_names_at symbols.now) }
{
    let (first, rest) = match name_of(symbols) {
        Ok(read) => read,
        Err(error) => return Err(error),
    };
    let (second, rest) = match name_of(rest) {
        Ok(read) => read,
        Err(error) => return Err(error),
    };
    let (third, rest) = match name_of(rest) {
        Ok(read) => read,
        Err(error) => return Err(error),
    };
    let rest = expect(Fixed::Newline, rest)?;
    Ok(((first, (second, third)), rest))
}

#[tactic(auto, unfolding(crate::specs::Blocks::basis_at))]
fn basis_of(symbols: &[Symbol]) -> Read<'_, BlockLine>
    ensures { Gives (λ x. (x.0, x.1.now)) result (basis_at symbols.now) }
{
    let rest = expect(Fixed::Basis, symbols)?;
    let ((name, (src, tgt)), rest) = match three_names_of(rest) {
        Ok(read) => read,
        Err(error) => return Err(error),
    };
    Ok((BlockLine::Basis { name, src, tgt }, rest))
}

#[tactic(auto, unfolding(crate::specs::Blocks::unit_at))]
fn unit_of(alloc: Global, symbols: &[Symbol]) -> Read<'_, BlockLine>
    ensures { Gives (λ x. (x.0, x.1.now)) result (unit_at symbols.now) }
{
    let rest = expect(Fixed::Unit, symbols)?;
    let (object, rest) = match name_of(rest) {
        Ok(read) => read,
        Err(error) => return Err(error),
    };
    let rest = expect(Fixed::Equals, rest)?;
    let (combo, rest) = combo_of(alloc, rest)?;
    let rest = expect(Fixed::Newline, rest)?;
    Ok((BlockLine::Unit { object, combo }, rest))
}

#[tactic(auto, unfolding(crate::specs::Blocks::product_at))]
fn product_of(alloc: Global, symbols: &[Symbol]) -> Read<'_, BlockLine>
    ensures { Gives (λ x. (x.0, x.1.now)) result (product_at symbols.now) }
{
    let rest = expect(Fixed::Product, symbols)?;
    let (left, rest) = match name_of(rest) {
        Ok(read) => read,
        Err(error) => return Err(error),
    };
    let (right, rest) = match name_of(rest) {
        Ok(read) => read,
        Err(error) => return Err(error),
    };
    let rest = expect(Fixed::Equals, rest)?;
    let (combo, rest) = combo_of(alloc, rest)?;
    let rest = expect(Fixed::Newline, rest)?;
    Ok((BlockLine::Product { left, right, combo }, rest))
}

fn starts_table_line(symbols: &[Symbol]) -> bool
    ensures { result ≡ begins starts_table_line symbols.now }
{
    match symbols {
        [first, ..] => {
            is(Fixed::Basis, first) || is(Fixed::Unit, first) || is(Fixed::Product, first)
        }
        [] => false,
    }
}

#[tactic(auto, unfolding(crate::specs::Blocks::table_line_at))]
fn table_line_of(alloc: Global, symbols: &[Symbol]) -> Read<'_, BlockLine>
    ensures { Gives (λ x. (x.0, x.1.now)) result (table_line_at symbols.now) }
{
    if starts(Fixed::Basis, symbols) {
        return basis_of(symbols);
    }
    if starts(Fixed::Unit, symbols) {
        return unit_of(alloc, symbols);
    }
    product_of(alloc, symbols)
}

#[tactic(auto, unfolding(crate::specs::Blocks::arrow_at))]
fn arrow_of(symbols: &[Symbol]) -> Read<'_, BlockLine>
    ensures { Gives (λ x. (x.0, x.1.now)) result (arrow_at symbols.now) }
{
    let rest = expect(Fixed::Arrow, symbols)?;
    let ((name, (src, tgt)), rest) = match three_names_of(rest) {
        Ok(read) => read,
        Err(error) => return Err(error),
    };
    Ok((BlockLine::Arrow { name, src, tgt }, rest))
}

#[tactic(auto, unfolding(crate::specs::Blocks::relation_at))]
fn relation_of(alloc: Global, symbols: &[Symbol]) -> Read<'_, BlockLine>
    ensures { Gives (λ x. (x.0, x.1.now)) result (relation_at symbols.now) }
{
    let rest = expect(Fixed::Relation, symbols)?;
    let (sum, rest) = sum_of(alloc, rest)?;
    let rest = expect(Fixed::Newline, rest)?;
    Ok((BlockLine::Relation { sum }, rest))
}

fn starts_quiver_line(symbols: &[Symbol]) -> bool
    ensures { result ≡ begins starts_quiver_line symbols.now }
{
    match symbols {
        [first, ..] => is(Fixed::Arrow, first) || is(Fixed::Relation, first),
        [] => false,
    }
}

#[tactic(auto, unfolding(crate::specs::Blocks::quiver_line_at))]
fn quiver_line_of(alloc: Global, symbols: &[Symbol]) -> Read<'_, BlockLine>
    ensures { Gives (λ x. (x.0, x.1.now)) result (quiver_line_at symbols.now) }
{
    if starts(Fixed::Arrow, symbols) {
        return arrow_of(symbols);
    }
    relation_of(alloc, symbols)
}

fn more_names(names: Items<Name>, symbols: &[Symbol]) -> Read<'_, Items<Name>>
    ensures { Gives (λ x. (x.0, x.1.now)) result (with_front names (many is_name name_at symbols.now)) }
{
    let mut names = names;
    let mut rest = symbols;
    'names: while starts_name(rest) {
        let (name, after) = match name_of(rest) {
            Ok(read) => read,
            Err(error) => return Err(error),
        };
        names.push(name)?;
        rest = after;
    }
    Ok((names, rest))
}

#[tactic(auto, unfolding(crate::specs::Blocks::some_names_at))]
fn some_names_of(alloc: Global, symbols: &[Symbol]) -> Read<'_, Items<Name>>
    ensures { Gives (λ x. (x.0, x.1.now)) result (some_names_at symbols.now) }
{
    let (first, rest) = match name_of(symbols) {
        Ok(read) => read,
        Err(error) => return Err(error),
    };
    let mut names = Items::new(Vec::new(alloc));
    names.push(first)?;
    more_names(names, rest)
}

#[tactic(auto, unfolding(crate::specs::Blocks::objects_at))]
fn objects_of(alloc: Global, symbols: &[Symbol]) -> Read<'_, Items<Name>>
    ensures { Gives (λ x. (x.0, x.1.now)) result (objects_at symbols.now) }
{
    let rest = expect(Fixed::Objects, symbols)?;
    let (names, rest) = some_names_of(alloc, rest)?;
    let rest = expect(Fixed::Newline, rest)?;
    Ok((names, rest))
}

fn more_table_lines(
    alloc: Global,
    lines: Items<BlockLine>,
    symbols: &[Symbol],
) -> Read<'_, Items<BlockLine>>
    ensures { Gives (λ x. (x.0, x.1.now)) result (with_front lines (many starts_table_line table_line_at symbols.now)) }
{
    let mut lines = lines;
    let mut rest = symbols;
    'lines: while starts_table_line(rest) {
        let (line, after) = match table_line_of(alloc, rest) {
            Ok(read) => read,
            Err(error) => return Err(error),
        };
        lines.push(line)?;
        rest = after;
    }
    Ok((lines, rest))
}

fn more_quiver_lines(
    alloc: Global,
    lines: Items<BlockLine>,
    symbols: &[Symbol],
) -> Read<'_, Items<BlockLine>>
    ensures { Gives (λ x. (x.0, x.1.now)) result (with_front lines (many starts_quiver_line quiver_line_at symbols.now)) }
{
    let mut lines = lines;
    let mut rest = symbols;
    'lines: while starts_quiver_line(rest) {
        let (line, after) = match quiver_line_of(alloc, rest) {
            Ok(read) => read,
            Err(error) => return Err(error),
        };
        lines.push(line)?;
        rest = after;
    }
    Ok((lines, rest))
}

#[tactic(auto, unfolding(crate::specs::Blocks::table_lines_at), using(cap_reading::proofs::Loops::front_none))]
fn table_lines_of(alloc: Global, symbols: &[Symbol]) -> Read<'_, Items<BlockLine>>
    ensures { Gives (λ x. (x.0, x.1.now)) result (table_lines_at symbols.now) }
{
    let (lines, rest) = more_table_lines(alloc, Items::new(Vec::new(alloc)), symbols)?;
    let rest = expect(Fixed::End, rest)?;
    let rest = expect(Fixed::Newline, rest)?;
    Ok((lines, rest))
}

#[tactic(auto, unfolding(crate::specs::Blocks::quiver_lines_at), using(cap_reading::proofs::Loops::front_none))]
fn quiver_lines_of(alloc: Global, symbols: &[Symbol]) -> Read<'_, Items<BlockLine>>
    ensures { Gives (λ x. (x.0, x.1.now)) result (quiver_lines_at symbols.now) }
{
    let (lines, rest) = more_quiver_lines(alloc, Items::new(Vec::new(alloc)), symbols)?;
    let rest = expect(Fixed::End, rest)?;
    let rest = expect(Fixed::Newline, rest)?;
    Ok((lines, rest))
}

#[tactic(auto, unfolding(crate::specs::Blocks::table_head_at))]
fn table_head_of(symbols: &[Symbol]) -> Read<'_, (Name, u64)>
    ensures { Gives (λ x. (x.0, x.1.now)) result (table_head_at symbols.now) }
{
    let rest = expect(Fixed::Table, symbols)?;
    let (name, rest) = match name_of(rest) {
        Ok(read) => read,
        Err(error) => return Err(error),
    };
    let rest = expect(Fixed::Prime, rest)?;
    let (prime, rest) = number_of(rest)?;
    let rest = expect(Fixed::Newline, rest)?;
    Ok(((name, prime), rest))
}

/// A table, and what is behind it.
#[tactic(auto, unfolding(crate::specs::Blocks::table_at))]
pub fn table_of(alloc: Global, symbols: &[Symbol]) -> Read<'_, Block>
    ensures { Gives (λ x. (x.0, x.1.now)) result (table_at symbols.now) }
{
    let ((name, prime), rest) = match table_head_of(symbols) {
        Ok(read) => read,
        Err(error) => return Err(error),
    };
    let (objects, rest) = objects_of(alloc, rest)?;
    let (lines, rest) = table_lines_of(alloc, rest)?;
    Ok((
        Block {
            name,
            prime,
            bound: None,
            objects,
            lines,
        },
        rest,
    ))
}

#[tactic(auto, unfolding(crate::specs::Blocks::quiver_head_at))]
fn quiver_head_of(symbols: &[Symbol]) -> Read<'_, (Name, (u64, u64))>
    ensures { Gives (λ x. (x.0, x.1.now)) result (quiver_head_at symbols.now) }
{
    let rest = expect(Fixed::Quiver, symbols)?;
    let (name, rest) = match name_of(rest) {
        Ok(read) => read,
        Err(error) => return Err(error),
    };
    let rest = expect(Fixed::Prime, rest)?;
    let (prime, rest) = number_of(rest)?;
    let rest = expect(Fixed::Bound, rest)?;
    let (bound, rest) = number_of(rest)?;
    let rest = expect(Fixed::Newline, rest)?;
    Ok(((name, (prime, bound)), rest))
}

/// A quiver, and what is behind it.
#[tactic(auto, unfolding(crate::specs::Blocks::quiver_at))]
pub fn quiver_of(alloc: Global, symbols: &[Symbol]) -> Read<'_, Block>
    ensures { Gives (λ x. (x.0, x.1.now)) result (quiver_at symbols.now) }
{
    let ((name, (prime, bound)), rest) = match quiver_head_of(symbols) {
        Ok(read) => read,
        Err(error) => return Err(error),
    };
    let (objects, rest) = objects_of(alloc, rest)?;
    let (lines, rest) = quiver_lines_of(alloc, rest)?;
    Ok((
        Block {
            name,
            prime,
            bound: Some(bound),
            objects,
            lines,
        },
        rest,
    ))
}
