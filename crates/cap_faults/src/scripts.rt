// The faults of sessions and scripts.
ghost use Rattle.std.specs.Prelude.{◌≡◌, ◌++◌, ◌-◌, [], length, IfOk, OnOk, MatchResult};
ghost use Rattle.std.specs.List.{list_any};
ghost use Rattle.cap_block_faults.specs.Marks.{faults, first};
ghost use Rattle.cap_faults.specs.Scripts.{is_session, session_marks, commands_faults, one_session, sessions_faults, values_behind, bound_by_part, script_faults, Tells};

use crate::commands::bind;
use crate::fault::CheckFault;
use crate::parts::{command_fault, prelude_values};
use crate::values::Value;
use cap_block_faults::{Part, first_fault, told};
use cap_grammar::{Command, MorTok, ObjTok, Place, Placed, Script, SessionPart};
use cap_names::{BadScript, Name, Reason};
use std::alloc::{AllocError, Global};

fn copied(alloc: Global, values: &[Value]) -> Result<Vec<Value>, AllocError>
    ensures { IfOk result (λ v. v.items ≡ values.now) }
{
    let mut copy = Vec::new(alloc);
    'values: for value in values {
        copy.push(*value)?;
    }
    Ok(copy)
}

fn commands_sound(
    alloc: Global,
    left: usize,
    parts: &[Part],
    outer: &[Value],
    commands: &[Placed<Command<ObjTok, MorTok>>],
) -> Result<(), CheckFault>
    ensures { MatchResult result (λ _. commands_faults left parts.now outer.now commands.now ≡ []) (Tells (commands_faults left parts.now outer.now commands.now)) }
{
    let mut values = copied(alloc, outer)?;
    'commands: for (i, command) in commands.iter().enumerate() {
        let own = values.len().saturating_sub(outer.len());
        let places = command.places.as_slice();
        let fault = command_fault(alloc, left <= i, parts, own, &values, &command.node, places)?;
        if let Some(fault) = fault {
            return Err(CheckFault::Bad(fault));
        }
        bind(&mut values, &command.node)?;
    }
    Ok(())
}

fn is_session(session: &Placed<SessionPart<ObjTok, MorTok>>, name: Name) -> bool
    ensures { result ≡ is_session name session.now }
{
    session.node.name == name
}

fn has_session(sessions: &[Placed<SessionPart<ObjTok, MorTok>>], name: Name) -> bool
    ensures { result ≡ list_any (is_session name) sessions.now }
{
    sessions.iter().any(|session| is_session(session, name))
}

fn head_fault(
    alloc: Global,
    earlier: &[Placed<SessionPart<ObjTok, MorTok>>],
    count: usize,
    name: Name,
    places: &[Place],
) -> Result<Option<BadScript>, AllocError>
    ensures { IfOk result (λ f. f ≡ first (faults places.now (session_marks earlier.now count name))) }
{
    let mut marks = Vec::new(alloc);
    marks.push(told(16 <= count, Reason::Limit))?;
    marks.push(told(has_session(earlier, name), Reason::Taken))?;
    Ok(first_fault(places, &marks))
}

fn session_sound(
    alloc: Global,
    left: usize,
    parts: &[Part],
    outer: &[Value],
    earlier: &[Placed<SessionPart<ObjTok, MorTok>>],
    count: usize,
    session: &Placed<SessionPart<ObjTok, MorTok>>,
) -> Result<(), CheckFault>
    ensures { MatchResult result (λ _. one_session left parts.now outer.now earlier.now count session.now ≡ []) (Tells (one_session left parts.now outer.now earlier.now count session.now)) }
{
    let places = session.places.as_slice();
    let fault = head_fault(alloc, earlier, count, session.node.name, places)?;
    if let Some(fault) = fault {
        return Err(CheckFault::Bad(fault));
    }
    commands_sound(alloc, left, parts, outer, session.node.commands.as_slice())
}

fn sessions_sound(
    alloc: Global,
    parts: &[Part],
    outer: &[Value],
    sessions: &[Placed<SessionPart<ObjTok, MorTok>>],
) -> Result<(), CheckFault>
    ensures { MatchResult result (λ _. sessions_faults parts.now outer.now sessions.now ≡ []) (Tells (sessions_faults parts.now outer.now sessions.now)) }
{
    let mut left = 4096_usize.saturating_sub(parts.len());
    'sessions: for (i, session) in sessions.iter().enumerate() {
        session_sound(alloc, left, parts, outer, &sessions[..i], i, session)?;
        left = left.saturating_sub(session.node.commands.len());
    }
    Ok(())
}

/// Whether a script has no fault of names, sorts and limits; else the first one.
pub fn faultless(alloc: Global, script: &Script) -> Result<(), CheckFault>
    ensures { MatchResult result (λ _. script_faults script.now ≡ []) (Tells (script_faults script.now)) }
{
    let parts = script.prelude.as_slice();
    let values = prelude_values(alloc, parts)?;
    sessions_sound(alloc, parts, &values, script.sessions.as_slice())
}
