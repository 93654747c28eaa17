// The symbols of scripts.
ghost use Rattle.std.specs.Prelude.{◌≡◌, ◌++◌, List, map, OnOk, IfOk};
ghost use Rattle.std.specs.List.{flat_map};
ghost use Rattle.cap_grammar.specs.Scripts.{Mark, symbols, IsScript};
ghost use Rattle.cap_spelling.specs.Spelling.{command_symbols, part_of_script_symbols, session_symbols, script_symbols};
ghost use Rattle.cap_spelling.specs.Again.{plain_zero, IsScriptUpToPlaces};

use crate::blocks::{push_block, push_end, push_over};
use crate::commands::push_command;
use cap_grammar::{Command, Fixed, Item, MorTok, ObjTok, Placed, Script, SessionPart, Symbol};
use cap_names::NoMemory;
use std::alloc::{AllocError, Global};

fn push_part(out: &mut Vec<Symbol>, part: &Item<ObjTok, MorTok>) -> Result<(), AllocError>
    ensures { OnOk result (out.new.items ≡ out.old.items ++ part_of_script_symbols part.now) }
{
    match part {
        Item::Block(block) => push_block(out, block)?,
        Item::Category { name, over } => {
            out.push(Symbol::Fixed(Fixed::Category))?;
            out.push(Symbol::Name(*name))?;
            push_over(out, *over)?;
            out.push(Symbol::Fixed(Fixed::Newline))?;
        }
        Item::Command(command) => push_command(out, command)?,
    }
    Ok(())
}

fn push_parts(
    out: &mut Vec<Symbol>,
    parts: &[Placed<Item<ObjTok, MorTok>>],
) -> Result<(), AllocError>
    ensures { OnOk result (out.new.items ≡ out.old.items ++ flat_map (λ p. part_of_script_symbols p.node) parts.now) }
{
    'parts: for part in parts {
        push_part(out, &part.node)?;
    }
    Ok(())
}

fn push_commands(
    out: &mut Vec<Symbol>,
    commands: &[Placed<Command<ObjTok, MorTok>>],
) -> Result<(), AllocError>
    ensures { OnOk result (out.new.items ≡ out.old.items ++ flat_map (λ c. command_symbols c.node) commands.now) }
{
    'commands: for command in commands {
        push_command(out, &command.node)?;
    }
    Ok(())
}

fn push_session(
    out: &mut Vec<Symbol>,
    session: &SessionPart<ObjTok, MorTok>,
) -> Result<(), AllocError>
    ensures { OnOk result (out.new.items ≡ out.old.items ++ session_symbols session.now) }
{
    out.push(Symbol::Fixed(Fixed::Session))?;
    out.push(Symbol::Name(session.name))?;
    out.push(Symbol::Fixed(Fixed::Newline))?;
    push_commands(out, session.commands.as_slice())?;
    push_end(out)?;
    Ok(())
}

fn push_sessions(
    out: &mut Vec<Symbol>,
    sessions: &[Placed<SessionPart<ObjTok, MorTok>>],
) -> Result<(), AllocError>
    ensures { OnOk result (out.new.items ≡ out.old.items ++ flat_map (λ p. session_symbols p.node) sessions.now) }
{
    'sessions: for session in sessions {
        push_session(out, &session.node)?;
    }
    Ok(())
}

fn spelled(alloc: Global, script: &Script) -> Result<Vec<Symbol>, NoMemory>
    ensures { IfOk result (λ v. v.items ≡ script_symbols script.now) }
{
    let mut out = Vec::new(alloc);
    push_parts(&mut out, script.prelude.as_slice())?;
    push_sessions(&mut out, script.sessions.as_slice())?;
    Ok(out)
}

/// The symbols of a script, each line with its LF, and without empty lines.
pub fn symbols_of(alloc: Global, script: &Script) -> Result<Vec<Symbol>, NoMemory>
    // They are the symbols of each text of the script, but for the tokens of the number 0.
    ensures text { IfOk result (λ v. (marks : List Mark) → IsScript script.now marks → v.items ≡ map plain_zero (symbols marks)) }
    // They are a text of the script up to its places, wherever they stand, if it has a text at all.
    ensures again { IfOk result (λ v. (own : List Mark) → IsScript script.now own → (marks : List Mark) → symbols marks ≡ v.items → IsScriptUpToPlaces script.now marks) }
{
    spelled(alloc, script)
}
