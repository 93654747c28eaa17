// The categories of a prelude are shared among sessions, and closed behind them.
ghost use Rattle.std.specs.Prelude.{◌≡◌, ◌+◌, ◌<◌, ◌≤◌, ◌++◌, length, map, IfOk, OnOk};
ghost use Rattle.std.specs.List.{All, AllZip};
ghost use Rattle.cap_session.specs.Shares.{IsSharedOf, JobsFrom, fewer_by, Returns, JoinAll, rows_of, traces_of, IsWholeAgain, IsClosedAs};

use crate::gated::Gated;
use crate::jobs::{Ended, Job};
use crate::prelude::OwnSeat;
use crate::sessions::next_session;
use cap_checked::CheckedObj;
use cap_data::{MorData, ObjData};
use cap_desk::OwnDesk;
use cap_grammar::{Placed, SessionPart};
use cap_io::Gate;
use cap_names::{CatNo, MorLit, NoMemory, SessionNo};
use cap_report::Trace;
use cap_seat::Seat;
use cap_shares::{SharedCategory, join_row, split_row};
use std::alloc::Global;

/// Puts the state of each category behind a turn with so many shares.
pub(crate) fn share_all<'g, G: Gate>(
    alloc: Global,
    mut seats: Vec<OwnSeat<'g, G>>,
    shares: u32,
) -> Result<Vec<SharedCategory>, NoMemory>
    requires { 1 ≤ shares }
    ensures { IfOk result (λ ks. AllZip (IsSharedOf shares) seats.entry.items ks.items) }
{
    let Some(seat) = seats.pop() else {
        return Ok(Vec::new(alloc));
    };
    let mut categories = share_all(alloc, seats, shares)?;
    let (desk, memory) = seat.into_parts();
    let ledger = desk.into_desk().into_ledger();
    categories.push(SharedCategory::open(alloc, ledger, memory, shares)?)?;
    Ok(categories)
}

/// A job for each session, with one share at each category.
pub(crate) fn make_jobs<'t>(
    alloc: Global,
    categories: &mut [SharedCategory],
    sessions: &'t [Placed<SessionPart<CheckedObj, MorLit>>],
) -> Result<Vec<Job<'t>>, NoMemory>
    requires few { length sessions.now < 256 }
    requires shares { All (λ k. length sessions.now < k.shares) categories.old }
    ensures jobs { IfOk result (λ jobs. JobsFrom 1 categories.old sessions.now jobs.items) }
    ensures rest { OnOk result (categories.new ≡ map (fewer_by (length sessions.now)) categories.old) }
{
    let mut jobs = Vec::new(alloc);
    'sessions: for part in sessions {
        let session = next_session(jobs.len() + 1);
        let row = split_row(alloc, categories)?;
        let commands = part.node.commands.as_slice();
        jobs.push(Job {
            session,
            commands,
            row,
        })?;
    }
    Ok(jobs)
}

/// Takes the seats of all sessions back, and puts their traces behind those before.
pub(crate) fn join_all(
    categories: &mut [SharedCategory],
    mut sessions: Vec<Ended>,
    traces: Vec<Trace<ObjData, MorData>>,
) -> Result<Vec<Trace<ObjData, MorData>>, NoMemory>
    requires { All (Returns categories.old) (rows_of sessions.items) }
    ensures traces { IfOk result (λ all. all.items ≡ traces.items ++ traces_of sessions.items) }
    ensures joined { OnOk result (JoinAll categories.old (rows_of sessions.items) categories.new) }
{
    let Some(Ended { row, trace }) = sessions.pop() else {
        return Ok(traces);
    };
    let mut traces = join_all(categories, sessions, traces)?;
    join_row(categories, row);
    traces.push(trace)?;
    Ok(traces)
}

/// Closes the turns of the categories, each at a seat that nobody else has.
pub(crate) fn close_all<'g, G: Gate>(
    alloc: Global,
    mut categories: Vec<SharedCategory>,
    gate: &'g G,
) -> Result<Vec<OwnSeat<'g, G>>, NoMemory>
    requires few { length categories.items ≤ 256 }
    requires whole { All IsWholeAgain categories.items }
    ensures { IfOk result (λ seats. AllZip IsClosedAs categories.items seats.items) }
{
    let Some(category) = categories.pop() else {
        return Ok(Vec::new(alloc));
    };
    let number = CatNo(categories.len() as u8);
    let mut seats = close_all(alloc, categories, gate)?;
    let ledger = category.close();
    ledger.law_legal();
    let desk = Gated::new(OwnDesk::new(ledger), gate, number);
    seats.push(Seat::new(alloc, desk, SessionNo(0)))?;
    Ok(seats)
}
