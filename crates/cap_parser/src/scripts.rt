//! Reading sessions and scripts.

ghost use Rattle.std.specs.Prelude.{◌≡◌, ◌++◌, length, IfOk};
ghost use Rattle.cap_reading.specs.Steps.{whole};
ghost use Rattle.cap_lines.specs.Marks.{marks};
ghost use Rattle.cap_parser.specs.Scripts.{GivesMarks, commands_at, session_at, items_at, sessions_at, script_at};

use crate::commands::starts_command;
use crate::nodes::{Node, item_of, placed_command_of, session_end_of, session_head_of};
use crate::parts::starts_part;
use cap_grammar::{
    Command, Fixed, Item, MorTok, ObjTok, Place, Placed, Script, SessionPart, Symbol,
};
use cap_literals::starts;
use cap_names::Items;
use cap_reading::ReadError;
use std::alloc::{AllocError, Global};

type List<'a, T> = Result<(Items<Placed<T>>, &'a [Symbol], &'a [Place]), ReadError<'a, Symbol>>;

fn commands_of<'a>(
    alloc: Global,
    symbols: &'a [Symbol],
    places: &'a [Place],
) -> List<'a, Command<ObjTok, MorTok>>
    requires { length symbols.now ≡ length places.now }
    ensures marks { GivesMarks (λ x. (x.0, marks x.1.now x.2.now)) result (commands_at (marks symbols.now places.now)) }
    ensures lengths { IfOk result (λ x. length x.1.now ≡ length x.2.now) }
{
    let mut commands = Items::new(Vec::new(alloc));
    let mut rest = symbols;
    let mut others = places;
    'nodes: while starts_command(rest) {
        let (command, after, behind) = match placed_command_of(alloc, rest, others) {
            Ok(read) => read,
            Err(error) => return Err(error),
        };
        commands.push(command)?;
        rest = after;
        others = behind;
    }
    Ok((commands, rest, others))
}

fn joined(first: Items<Place>, second: &Items<Place>) -> Result<Items<Place>, AllocError>
    ensures { IfOk result (λ places. places ≡ first ++ second.now) }
{
    let mut all = first.into_vec();
    all.extend_from_slice(second.as_slice())?;
    Ok(Items::new(all))
}

fn session_of<'a>(
    alloc: Global,
    symbols: &'a [Symbol],
    places: &'a [Place],
) -> Node<'a, SessionPart<ObjTok, MorTok>>
    requires { length symbols.now ≡ length places.now }
    ensures marks { GivesMarks (λ x. (x.0, marks x.1.now x.2.now)) result (session_at (marks symbols.now places.now)) }
    ensures lengths { IfOk result (λ x. length x.1.now ≡ length x.2.now) }
{
    let (head, rest, others) = match session_head_of(alloc, symbols, places) {
        Ok(read) => read,
        Err(error) => return Err(error),
    };
    let (commands, rest, others) = match commands_of(alloc, rest, others) {
        Ok(read) => read,
        Err(error) => return Err(error),
    };
    let (last, rest, others) = match session_end_of(alloc, rest, others) {
        Ok(read) => read,
        Err(error) => return Err(error),
    };
    let own = joined(head.places, &last.places)?;
    let node = SessionPart {
        name: head.node,
        commands,
    };
    Ok((Placed { node, places: own }, rest, others))
}

fn items_of<'a>(
    alloc: Global,
    symbols: &'a [Symbol],
    places: &'a [Place],
) -> List<'a, Item<ObjTok, MorTok>>
    requires { length symbols.now ≡ length places.now }
    ensures marks { GivesMarks (λ x. (x.0, marks x.1.now x.2.now)) result (items_at (marks symbols.now places.now)) }
    ensures lengths { IfOk result (λ x. length x.1.now ≡ length x.2.now) }
{
    let mut items = Items::new(Vec::new(alloc));
    let mut rest = symbols;
    let mut others = places;
    'nodes: while starts_part(rest) {
        let (item, after, behind) = match item_of(alloc, rest, others) {
            Ok(read) => read,
            Err(error) => return Err(error),
        };
        items.push(item)?;
        rest = after;
        others = behind;
    }
    Ok((items, rest, others))
}

fn sessions_of<'a>(
    alloc: Global,
    symbols: &'a [Symbol],
    places: &'a [Place],
) -> List<'a, SessionPart<ObjTok, MorTok>>
    requires { length symbols.now ≡ length places.now }
    ensures marks { GivesMarks (λ x. (x.0, marks x.1.now x.2.now)) result (sessions_at (marks symbols.now places.now)) }
    ensures lengths { IfOk result (λ x. length x.1.now ≡ length x.2.now) }
{
    let mut sessions = Items::new(Vec::new(alloc));
    let mut rest = symbols;
    let mut others = places;
    'nodes: while starts(Fixed::Session, rest) {
        let (session, after, behind) = match session_of(alloc, rest, others) {
            Ok(read) => read,
            Err(error) => return Err(error),
        };
        sessions.push(session)?;
        rest = after;
        others = behind;
    }
    Ok((sessions, rest, others))
}

/// The script that all of these symbols are.
pub fn script_of<'a>(
    alloc: Global,
    symbols: &'a [Symbol],
    places: &'a [Place],
) -> Result<Script, ReadError<'a, Symbol>>
    requires { length symbols.now ≡ length places.now }
    ensures { GivesMarks (λ x. x) result (whole script_at (marks symbols.now places.now)) }
{
    let (prelude, rest, others) = match items_of(alloc, symbols, places) {
        Ok(read) => read,
        Err(error) => return Err(error),
    };
    let (sessions, rest, _others) = match sessions_of(alloc, rest, others) {
        Ok(read) => read,
        Err(error) => return Err(error),
    };
    match rest {
        [] => Ok(Script { prelude, sessions }),
        _ => Err(ReadError::Syntax(rest)),
    }
}
