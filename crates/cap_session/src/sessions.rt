// Sessions behind the prelude, one after another.
ghost use Rattle.std.specs.Prelude.{◌≡◌, ◌<◌, IfOk, OnOk};
ghost use Rattle.cap_rules.specs.Table.{rule_table};
ghost use Rattle.cap_traces.specs.Runs.{seated};
ghost use Rattle.cap_session.specs.Courses.{Hands};
ghost use Rattle.cap_session.specs.Sessions.{SessionComes, RunsSession, SessionsCome, RunsSessions};

use crate::course::{Course, run_commands};
use crate::prelude::OwnSeat;
use cap_checked::CheckedObj;
use cap_data::{MorData, ObjData};
use cap_desk::Desk;
use cap_grammar::{Command, Placed, SessionPart};
use cap_io::Gate;
use cap_names::{Items, MorLit, NoMemory, SessionNo};
use cap_offer::AnyCat;
use cap_report::Trace;
use cap_seat::Seat;
use cap_terms::RuleSet;
use std::alloc::Global;

/// Lets this session sit down at all seats.
fn seat_session<D: Desk<AnyCat> + Drop>(seats: &mut [Seat<AnyCat, D>], session: SessionNo)
    ensures { seats.new ≡ seated session seats.old }
{
    'seats: for seat in seats.iter_mut() {
        seat.change_session(session);
    }
}

/// The trace of the session at hand.
pub(crate) fn hand_over<S>(
    alloc: Global,
    course: &mut Course<S>,
    session: SessionNo,
) -> Trace<ObjData, MorData>
    ensures { Hands session course.old result course.new }
{
    let events = std::mem::replace(&mut course.events, Vec::new(alloc));
    let done = std::mem::replace(&mut course.done, Vec::new(alloc));
    Trace {
        session,
        events: Items::new(events),
        done: Items::new(done),
    }
}

/// Runs a session behind the prelude; what it binds goes at its end.
pub(crate) fn run_session<D: Desk<AnyCat> + Drop, G: Gate>(
    alloc: Global,
    rules: &RuleSet,
    course: &mut Course<Seat<AnyCat, D>>,
    commands: &[Placed<Command<CheckedObj, MorLit>>],
    session: SessionNo,
    gate: &G,
) -> Result<Trace<ObjData, MorData>, NoMemory>
    requires rules { rules.now ≡ rule_table }
    requires comes { SessionComes course.old commands.now }
    ensures { IfOk result (λ trace. RunsSession D.others session course.old commands.now trace course.new) }
{
    let bound = course.standing.bound.len();
    seat_session(course.seats.as_mut_slice(), session);
    run_commands(alloc, rules, course, commands, session, gate)?;
    course.standing.bound.truncate(bound);
    Ok(hand_over(alloc, course, session))
}

/// The number of the session behind so many traces, that of the prelude among them.
pub(crate) fn next_session(traces: usize) -> SessionNo
    requires { traces < 256 }
    ensures { result.0 ≡ traces }
{
    SessionNo(traces as u8)
}

/// Runs the sessions one after another, and puts their traces behind that of the prelude.
pub(crate) fn run_one_by_one<'g, G: Gate>(
    alloc: Global,
    rules: &RuleSet,
    course: &mut Course<OwnSeat<'g, G>>,
    sessions: &[Placed<SessionPart<CheckedObj, MorLit>>],
    traces: &mut Vec<Trace<ObjData, MorData>>,
    gate: &G,
) -> Result<(), NoMemory>
    requires rules { rules.now ≡ rule_table }
    requires comes { SessionsCome course.old sessions.now traces.old.items }
    ensures { OnOk result (RunsSessions course.old sessions.now traces.old.items course.new traces.new.items) }
{
    'sessions: for part in sessions {
        let session = next_session(traces.len());
        let commands = part.node.commands.as_slice();
        traces.push(run_session(alloc, rules, course, commands, session, gate)?)?;
    }
    Ok(())
}
