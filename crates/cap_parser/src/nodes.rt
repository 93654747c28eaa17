//! Nodes with the places of their symbols.

ghost use Rattle.std.specs.Prelude.{◌≡◌, length, IfOk};
ghost use Rattle.cap_reading.specs.Reading.{Gives};
ghost use Rattle.cap_lines.specs.Marks.{marks, placed_at};
ghost use Rattle.cap_parser.specs.Scripts.{GivesMarks, session_head_at, session_end_at, item_at, placed_command_at};

use crate::commands::command_of;
use crate::parts::part_of;
use cap_grammar::{Command, Fixed, Item, MorTok, ObjTok, Place, Placed, Symbol};
use cap_lines::place_node;
use cap_literals::{expect, name_of};
use cap_names::Name;
use cap_reading::ReadError;
use std::alloc::Global;

/// What is read of symbols, and what is behind it.
type Read<'a, T> = Result<(T, &'a [Symbol]), ReadError<'a, Symbol>>;

/// A node with its places, and the symbols and places behind it.
pub type Node<'a, T> = Result<(Placed<T>, &'a [Symbol], &'a [Place]), ReadError<'a, Symbol>>;

/// A block, a category or a command with its places.
#[tactic(auto, unfolding(crate::specs::Scripts::item_at))]
pub fn item_of<'a>(
    alloc: Global,
    symbols: &'a [Symbol],
    places: &'a [Place],
) -> Node<'a, Item<ObjTok, MorTok>>
    requires { length symbols.now ≡ length places.now }
    ensures marks { GivesMarks (λ x. (x.0, marks x.1.now x.2.now)) result (item_at (marks symbols.now places.now)) }
    ensures lengths { IfOk result (λ x. length x.1.now ≡ length x.2.now) }
{
    let (node, rest) = match part_of(alloc, symbols) {
        Ok(read) => read,
        Err(error) => return Err(error),
    };
    let count = symbols.len() - rest.len();
    let (placed, others) = place_node(alloc, node, places, count)?;
    Ok((placed, rest, others))
}

/// A command with its places.
#[tactic(auto, unfolding(crate::specs::Scripts::placed_command_at))]
pub fn placed_command_of<'a>(
    alloc: Global,
    symbols: &'a [Symbol],
    places: &'a [Place],
) -> Node<'a, Command<ObjTok, MorTok>>
    requires { length symbols.now ≡ length places.now }
    ensures marks { GivesMarks (λ x. (x.0, marks x.1.now x.2.now)) result (placed_command_at (marks symbols.now places.now)) }
    ensures lengths { IfOk result (λ x. length x.1.now ≡ length x.2.now) }
{
    let (node, rest) = match command_of(alloc, symbols) {
        Ok(read) => read,
        Err(error) => return Err(error),
    };
    let count = symbols.len() - rest.len();
    let (placed, others) = place_node(alloc, node, places, count)?;
    Ok((placed, rest, others))
}

#[tactic(auto, unfolding(crate::specs::Scripts::session_head_at))]
fn head_of(symbols: &[Symbol]) -> Read<'_, Name>
    ensures { Gives (λ x. (x.0, x.1.now)) result (session_head_at symbols.now) }
{
    let rest = expect(Fixed::Session, symbols)?;
    let (name, rest) = match name_of(rest) {
        Ok(read) => read,
        Err(error) => return Err(error),
    };
    let rest = expect(Fixed::Newline, rest)?;
    Ok((name, rest))
}

/// The first line of a session: its name with the places.
pub fn session_head_of<'a>(
    alloc: Global,
    symbols: &'a [Symbol],
    places: &'a [Place],
) -> Node<'a, Name>
    requires { length symbols.now ≡ length places.now }
    ensures marks { GivesMarks (λ x. (x.0, marks x.1.now x.2.now)) result (placed_at session_head_at (marks symbols.now places.now)) }
    ensures lengths { IfOk result (λ x. length x.1.now ≡ length x.2.now) }
{
    let (node, rest) = match head_of(symbols) {
        Ok(read) => read,
        Err(error) => return Err(error),
    };
    let count = symbols.len() - rest.len();
    let (placed, others) = place_node(alloc, node, places, count)?;
    Ok((placed, rest, others))
}

#[tactic(auto, unfolding(crate::specs::Scripts::session_end_at))]
fn end_of(symbols: &[Symbol]) -> Read<'_, ()>
    ensures { Gives (λ x. (x.0, x.1.now)) result (session_end_at symbols.now) }
{
    let rest = expect(Fixed::End, symbols)?;
    let rest = expect(Fixed::Newline, rest)?;
    Ok(((), rest))
}

/// The last line of a session: its places.
pub fn session_end_of<'a>(alloc: Global, symbols: &'a [Symbol], places: &'a [Place]) -> Node<'a, ()>
    requires { length symbols.now ≡ length places.now }
    ensures marks { GivesMarks (λ x. (x.0, marks x.1.now x.2.now)) result (placed_at session_end_at (marks symbols.now places.now)) }
    ensures lengths { IfOk result (λ x. length x.1.now ≡ length x.2.now) }
{
    let (node, rest) = match end_of(symbols) {
        Ok(read) => read,
        Err(error) => return Err(error),
    };
    let count = symbols.len() - rest.len();
    let (placed, others) = place_node(alloc, node, places, count)?;
    Ok((placed, rest, others))
}
