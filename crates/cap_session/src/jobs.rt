// Sessions at shared categories, each in a thread.
ghost use Rattle.std.specs.Prelude.{◌≡◌, IfOk};
ghost use Rattle.std.specs.List.{All, AllZip};
ghost use Rattle.std.specs.Thread.{IsSync};
ghost use Rattle.cap_rules.specs.Table.{rule_table};
ghost use Rattle.cap_session.specs.Jobs.{CanSit, SatDown, MayRun, HasRunAs, HaveBoth, commands_at};

use crate::answers::copy_standing;
use crate::course::Course;
use crate::places::{SharedSeat, sit_down, stand_up};
use crate::sessions::run_session;
use cap_checked::CheckedObj;
use cap_data::{MorData, ObjData};
use cap_grammar::{Command, Placed, SessionPart};
use cap_io::Gate;
use cap_names::{MorLit, NoMemory, SessionNo};
use cap_offer::AnyCat;
use cap_report::{Situation, Trace};
use cap_shares::{SessionSeat, SharedCategory};
use cap_terms::RuleSet;
use std::alloc::Global;
use std::sync::Wait;
use std::thread::{Threads, join};

/// What all sessions have in common: the rules, what stands behind the prelude, and the sessions of the script, of which each finds
/// its own by its number.
#[derive(Clone, Copy)]
pub(crate) struct Common<'t> {
    pub(crate) rules: &'t RuleSet,
    pub(crate) standing: &'t Situation<AnyCat, (), MorData>,
    pub(crate) sessions: &'t [Placed<SessionPart<CheckedObj, MorLit>>],
}

/// A session that is to run: its number, its commands, and its seat at each category's turn.
#[derive(Drop)]
pub(crate) struct Job<'t> {
    pub(crate) session: SessionNo,
    pub(crate) commands: &'t [Placed<Command<CheckedObj, MorLit>>],
    pub(crate) row: Vec<SessionSeat>,
}

/// A session that has sat down at the categories.
#[derive(Drop)]
pub(crate) struct Seated<S> {
    pub(crate) session: SessionNo,
    pub(crate) seats: Vec<S>,
}

/// A session that has run: its seats, and its trace.
#[derive(Drop)]
pub(crate) struct Ended {
    pub(crate) row: Vec<SessionSeat>,
    pub(crate) trace: Trace<ObjData, MorData>,
}

/// Lets each session sit down at the categories.
pub(crate) fn seat_all<'t, R: Wait, G: Gate>(
    rt: &'t R,
    alloc: Global,
    gate: &'t G,
    categories: &'t [SharedCategory],
    mut jobs: Vec<Job<'t>>,
) -> Result<Vec<Seated<SharedSeat<'t, R, G>>>, NoMemory>
    requires { All (CanSit categories.now) jobs.items }
    ensures { IfOk result (λ all. AllZip (SatDown categories.now) jobs.entry.items all.items) }
{
    let Some(
        Job {
            session,
            commands: _,
            row,
        },
    ) = jobs.pop()
    else {
        return Ok(Vec::new(alloc));
    };
    let mut all = seat_all(rt, alloc, gate, categories, jobs)?;
    let seats = sit_down(rt, alloc, gate, categories, row, session)?;
    all.push(Seated { session, seats })?;
    Ok(all)
}

/// The commands of the session with a number, which counts from 1.
fn commands_of<'c>(
    sessions: &'c [Placed<SessionPart<CheckedObj, MorLit>>],
    session: SessionNo,
) -> &'c [Placed<Command<CheckedObj, MorLit>>]
    ensures { result.now ≡ commands_at sessions.now session.0 }
{
    match sessions.get((session.0 as usize).saturating_sub(1)) {
        Some(part) => part.node.commands.as_slice(),
        None => &[],
    }
}

/// Runs a session in this thread.
fn run_job<'t, R: Wait, G: Gate>(
    alloc: Global,
    gate: &G,
    common: Common,
    job: Seated<SharedSeat<'t, R, G>>,
) -> Result<Ended, NoMemory>
    requires rules { common.rules.now ≡ rule_table }
    requires ready { MayRun common.sessions.now common.standing.now job }
    ensures { IfOk result (λ e. HasRunAs common.entry.sessions.now common.entry.standing.now job.entry e) }
{
    let Seated { session, seats } = job;
    let mut course = Course {
        standing: copy_standing(alloc, common.standing)?,
        seats,
        events: Vec::new(alloc),
        done: Vec::new(alloc),
    };
    let commands = commands_of(common.sessions, session);
    let trace = run_session(alloc, common.rules, &mut course, commands, session, gate)?;
    let row = stand_up(alloc, course.seats)?;
    Ok(Ended { row, trace })
}

/// The sessions that have run, and one more behind them.
fn with_last(
    before: Result<Vec<Ended>, NoMemory>,
    last: Result<Ended, NoMemory>,
) -> Result<Vec<Ended>, NoMemory>
    ensures { IfOk result (λ all. HaveBoth before last all.items) }
{
    let mut all = before?;
    all.push(last?)?;
    Ok(all)
}

/// Runs each session in a thread of its own, or one after another where no thread can be made.
pub(crate) fn run_jobs<'t, R: Threads + Wait + Sync, G: Gate>(
    rt: &R,
    alloc: Global,
    gate: &G,
    common: Common,
    mut jobs: Vec<Seated<SharedSeat<'t, R, G>>>,
) -> Result<Vec<Ended>, NoMemory>
    requires rules { common.rules.now ≡ rule_table }
    requires ready { All (MayRun common.sessions.now common.standing.now) jobs.items }
    ensures { IfOk result (λ all. AllZip (HasRunAs common.entry.sessions.now common.entry.standing.now) jobs.entry.items all.items) }
{
    let Some(last) = jobs.pop() else {
        return Ok(Vec::new(alloc));
    };
    let (ended, before) = join(
        rt,
        move || -> Result<Ended, NoMemory>
            requires { (common.rules.now ≡ rule_table) × MayRun common.sessions.now common.standing.now last }
            ensures { IfOk result (λ e. HasRunAs common.entry.sessions.now common.entry.standing.now last.entry e) }
        { run_job(alloc, gate, common, last) },
        move || -> Result<Vec<Ended>, NoMemory>
            requires { IsSync R.row × IsSync G.row × (common.rules.now ≡ rule_table) × All (MayRun common.sessions.now common.standing.now) jobs.items }
            ensures { IfOk result (λ all. AllZip (HasRunAs common.entry.sessions.now common.entry.standing.now) jobs.entry.items all.items) }
        { run_jobs(rt, alloc, gate, common, jobs) },
    );
    with_last(before, ended)
}
