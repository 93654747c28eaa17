// Literals of objects and morphisms.

ghost use Rattle.std.specs.Prelude.{◌≡◌};
ghost use Rattle.cap_reading.specs.Steps.{many, with_front};
ghost use Rattle.cap_reading.specs.Reading.{Gives};
ghost use Rattle.cap_grammar.specs.declared.symbol.Fixed.TheVariants as word;
ghost use Rattle.cap_literals.specs.Reading.{is, is_name, is_number, number_at, rows_at, numbers_at, map_at, maps_at, listed_at, dims_at, object_at, matrices_at, morphism_at};

use crate::lists::{list_of, path_of};
use crate::matrices::rows_of;
use crate::tokens::{expect, number_of, starts, starts_name, starts_number};
use cap_grammar::{Fixed, MorTok, ObjTok, RowsTok, Symbol};
use cap_names::{Items, Name};
use cap_reading::ReadError;
use std::alloc::Global;

type Map = (Items<Name>, RowsTok);

type Maps<'a> = Result<(Items<Map>, &'a [Symbol]), ReadError<'a, Symbol>>;

type Numbers<'a> = Result<(Items<u64>, &'a [Symbol]), ReadError<'a, Symbol>>;

type Matrices<'a> = Result<(Items<RowsTok>, &'a [Symbol]), ReadError<'a, Symbol>>;

type Object<'a> = Result<(ObjTok, &'a [Symbol]), ReadError<'a, Symbol>>;

type Morphism<'a> = Result<(MorTok, &'a [Symbol]), ReadError<'a, Symbol>>;

#[tactic(auto, unfolding(crate::specs::Reading::map_at))]
fn map_of(alloc: Global, symbols: &[Symbol]) -> Result<(Map, &[Symbol]), ReadError<'_, Symbol>>
    ensures { Gives (λ x. (x.0, x.1.now)) result (map_at symbols.now) }
{
    let (path, rest) = path_of(alloc, symbols)?;
    let rest = expect(Fixed::Equals, rest)?;
    let (rows, rest) = rows_of(alloc, rest)?;
    Ok(((path, rows), rest))
}

fn more_maps(alloc: Global, maps: Items<Map>, symbols: &[Symbol]) -> Maps<'_>
    ensures { Gives (λ x. (x.0, x.1.now)) result (with_front maps (many is_name map_at symbols.now)) }
{
    let mut maps = maps;
    let mut rest = symbols;
    'maps: while starts_name(rest) {
        let (map, after) = map_of(alloc, rest)?;
        maps.push(map)?;
        rest = after;
    }
    Ok((maps, rest))
}

#[tactic(auto, unfolding(crate::specs::Reading::maps_at))]
fn maps_of(alloc: Global, symbols: &[Symbol]) -> Maps<'_>
    ensures { Gives (λ x. (x.0, x.1.now)) result (maps_at symbols.now) }
{
    more_maps(alloc, Items::new(Vec::new(alloc)), symbols)
}

#[tactic(auto, unfolding(crate::specs::Reading::listed_at))]
fn listed_of(alloc: Global, symbols: &[Symbol]) -> Object<'_>
    ensures { Gives (λ x. (x.0, x.1.now)) result (listed_at symbols.now) }
{
    let (src, rest) = list_of(alloc, symbols)?;
    if starts(Fixed::To, rest) {
        let rest = expect(Fixed::To, rest)?;
        let (tgt, rest) = list_of(alloc, rest)?;
        let (rho, rest) = rows_of(alloc, rest)?;
        return Ok((ObjTok::Relation { src, tgt, rho }, rest));
    }
    Ok((ObjTok::Parts(src), rest))
}

fn more_numbers(numbers: Items<u64>, symbols: &[Symbol]) -> Numbers<'_>
    ensures { Gives (λ x. (x.0, x.1.now)) result (with_front numbers (many is_number number_at symbols.now)) }
{
    let mut numbers = numbers;
    let mut rest = symbols;
    'numbers: while starts_number(rest) {
        let (number, after) = number_of(rest)?;
        numbers.push(number)?;
        rest = after;
    }
    Ok((numbers, rest))
}

#[tactic(auto, unfolding(crate::specs::Reading::numbers_at))]
fn numbers_of(alloc: Global, symbols: &[Symbol]) -> Numbers<'_>
    ensures { Gives (λ x. (x.0, x.1.now)) result (numbers_at symbols.now) }
{
    let (first, rest) = number_of(symbols)?;
    let mut numbers = Items::new(Vec::new(alloc));
    numbers.push(first)?;
    more_numbers(numbers, rest)
}

#[tactic(auto, unfolding(crate::specs::Reading::dims_at))]
fn dims_of(alloc: Global, symbols: &[Symbol]) -> Object<'_>
    ensures { Gives (λ x. (x.0, x.1.now)) result (dims_at symbols.now) }
{
    let rest = expect(Fixed::Dims, symbols)?;
    let (dims, rest) = numbers_of(alloc, rest)?;
    if starts(Fixed::Maps, rest) {
        let rest = expect(Fixed::Maps, rest)?;
        let (maps, rest) = maps_of(alloc, rest)?;
        let maps = Some(maps);
        return Ok((ObjTok::Dims { dims, maps }, rest));
    }
    Ok((ObjTok::Dims { dims, maps: None }, rest))
}

/// A literal of an object, and what is behind it.
#[tactic(auto, unfolding(crate::specs::Reading::object_at))]
pub fn object_of(alloc: Global, symbols: &[Symbol]) -> Object<'_>
    ensures { Gives (λ x. (x.0, x.1.now)) result (object_at symbols.now) }
{
    if starts_number(symbols) {
        let (number, rest) = number_of(symbols)?;
        return Ok((ObjTok::Dim(number), rest));
    }
    if starts(Fixed::Open, symbols) {
        return listed_of(alloc, symbols);
    }
    dims_of(alloc, symbols)
}

fn more_matrices(alloc: Global, matrices: Items<RowsTok>, symbols: &[Symbol]) -> Matrices<'_>
    ensures { Gives (λ x. (x.0, x.1.now)) result (with_front matrices (many (is word.Open) rows_at symbols.now)) }
{
    let mut matrices = matrices;
    let mut rest = symbols;
    'matrices: while starts(Fixed::Open, rest) {
        let (rows, after) = rows_of(alloc, rest)?;
        matrices.push(rows)?;
        rest = after;
    }
    Ok((matrices, rest))
}

#[tactic(auto, unfolding(crate::specs::Reading::matrices_at))]
fn matrices_of(alloc: Global, symbols: &[Symbol]) -> Matrices<'_>
    ensures { Gives (λ x. (x.0, x.1.now)) result (matrices_at symbols.now) }
{
    more_matrices(alloc, Items::new(Vec::new(alloc)), symbols)
}

/// A literal of a morphism, and what is behind it.
#[tactic(auto, unfolding(crate::specs::Reading::morphism_at))]
pub fn morphism_of(alloc: Global, symbols: &[Symbol]) -> Morphism<'_>
    ensures { Gives (λ x. (x.0, x.1.now)) result (morphism_at symbols.now) }
{
    if starts(Fixed::OpenBrace, symbols) {
        let rest = expect(Fixed::OpenBrace, symbols)?;
        let (parts, rest) = matrices_of(alloc, rest)?;
        let rest = expect(Fixed::CloseBrace, rest)?;
        return Ok((MorTok::Parts(parts), rest));
    }
    let (rows, rest) = rows_of(alloc, symbols)?;
    Ok((MorTok::Rows(rows), rest))
}
