// Commands, parts, sessions and scripts.
ghost use Rattle.std.specs.Prelude.{◌≡◌, map, IfOk};
ghost use Rattle.cap_checked.specs.Checked.{command, placed_command, node, part, prelude, session, checked_of};

use crate::literals::morphism_lit;
use crate::objects::object_lit;
use crate::tree::{Checked, CheckedObj, Part};
use cap_block_faults::over_of;
use cap_grammar::{Command, Item, MorTok, ObjTok, Placed, Script, SessionPart};
use cap_names::{Items, MorLit, NoMemory};
use std::alloc::Global;

fn command(
    alloc: Global,
    parts: &[Part],
    token: Command<ObjTok, MorTok>,
) -> Result<Command<CheckedObj, MorLit>, NoMemory>
    ensures { IfOk result (λ x. x ≡ command parts.now token) }
{
    match token {
        Command::Register { cat, op, weight } => Ok(Command::Register { cat, op, weight }),
        Command::Finalise { cat } => Ok(Command::Finalise { cat }),
        Command::Plan { cat } => Ok(Command::Plan { cat }),
        Command::Object { cat, name, lit } => {
            let lit = object_lit(alloc, parts, &over_of(parts, cat), &lit)?;
            Ok(Command::Object { cat, name, lit })
        }
        Command::Src { name, of } => Ok(Command::Src { name, of }),
        Command::Tgt { name, of } => Ok(Command::Tgt { name, of }),
        Command::Let {
            name,
            cat,
            src,
            tgt,
            lit,
        } => {
            let lit = morphism_lit(alloc, &lit)?;
            Ok(Command::Let {
                name,
                cat,
                src,
                tgt,
                lit,
            })
        }
        Command::Call {
            name,
            cat,
            op,
            args,
        } => Ok(Command::Call {
            name,
            cat,
            op,
            args,
        }),
    }
}

fn commands(
    alloc: Global,
    parts: &[Part],
    tokens: Vec<Placed<Command<ObjTok, MorTok>>>,
) -> Result<Items<Placed<Command<CheckedObj, MorLit>>>, NoMemory>
    ensures { IfOk result (λ xs. xs ≡ map (placed_command parts.now) tokens.items) }
{
    let mut commands = Vec::new(alloc);
    'tokens: for token in tokens {
        let Placed { node, places } = token;
        let node = command(alloc, parts, node)?;
        commands.push(Placed { node, places })?;
    }
    Ok(Items::new(commands))
}

fn session(
    alloc: Global,
    parts: &[Part],
    token: Placed<SessionPart<ObjTok, MorTok>>,
) -> Result<Placed<SessionPart<CheckedObj, MorLit>>, NoMemory>
    ensures { IfOk result (λ x. x ≡ session parts.now token) }
{
    let Placed { node, places } = token;
    let SessionPart {
        name,
        commands: tokens,
    } = node;
    let commands = commands(alloc, parts, tokens.into_vec())?;
    let node = SessionPart { name, commands };
    Ok(Placed { node, places })
}

fn sessions(
    alloc: Global,
    parts: &[Part],
    tokens: Vec<Placed<SessionPart<ObjTok, MorTok>>>,
) -> Result<Items<Placed<SessionPart<CheckedObj, MorLit>>>, NoMemory>
    ensures { IfOk result (λ xs. xs ≡ map (session parts.now) tokens.items) }
{
    let mut sessions = Vec::new(alloc);
    'tokens: for token in tokens {
        let session = session(alloc, parts, token)?;
        sessions.push(session)?;
    }
    Ok(Items::new(sessions))
}

fn node(
    alloc: Global,
    before: &[Part],
    token: Item<ObjTok, MorTok>,
) -> Result<Item<CheckedObj, MorLit>, NoMemory>
    ensures { IfOk result (λ x. x ≡ node before.now token) }
{
    match token {
        Item::Block(block) => Ok(Item::Block(block)),
        Item::Category { name, over } => Ok(Item::Category { name, over }),
        Item::Command(token) => {
            let command = command(alloc, before, token)?;
            Ok(Item::Command(command))
        }
    }
}

fn part(
    alloc: Global,
    before: &[Part],
    token: Part,
) -> Result<Placed<Item<CheckedObj, MorLit>>, NoMemory>
    ensures { IfOk result (λ x. x ≡ part before.now token) }
{
    let Placed {
        node: token,
        places,
    } = token;
    let node = node(alloc, before, token)?;
    Ok(Placed { node, places })
}

/// The parts from the last one on, so that those before a part are the ones that are left.
fn prelude(
    alloc: Global,
    tokens: Vec<Part>,
) -> Result<Items<Placed<Item<CheckedObj, MorLit>>>, NoMemory>
    ensures { IfOk result (λ xs. xs ≡ prelude tokens.items) }
{
    let mut before = tokens;
    let mut parts = Vec::new(alloc);
    'tokens: while let Some(token) = before.pop() {
        let part = part(alloc, before.as_slice(), token)?;
        parts.push(part)?;
    }
    parts.reverse();
    Ok(Items::new(parts))
}

/// The script with numbers in place of names. A name that no block has stands as a number that is too large.
pub fn checked(alloc: Global, script: Script) -> Result<Checked, NoMemory>
    ensures { IfOk result (λ x. x ≡ checked_of script) }
{
    let Script {
        prelude: parts,
        sessions: tokens,
    } = script;
    let sessions = sessions(alloc, parts.as_slice(), tokens.into_vec())?;
    let prelude = prelude(alloc, parts.into_vec())?;
    Ok(Checked { prelude, sessions })
}
