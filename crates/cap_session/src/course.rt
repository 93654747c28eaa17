// How far a run has come.
ghost use Rattle.std.specs.Prelude.{◌≡◌, ◌<◌, ◌^◌, length, OnOk};
ghost use Rattle.cap_rules.specs.Table.{rule_table};
ghost use Rattle.cap_commands.specs.Running.{IsPrepared};
ghost use Rattle.cap_session.specs.Courses.{Notes, RunsOne, RunsAll, Comes};

use crate::answers::{bound_name, copy_answer};
use cap_accounts::bind;
use cap_checked::CheckedObj;
use cap_commands::run_command;
use cap_data::{MorData, ObjData};
use cap_desk::Desk;
use cap_grammar::{Command, Placed};
use cap_history::Entry;
use cap_io::{Gate, GatePlace};
use cap_names::{CatNo, MorLit, NoMemory, SessionNo};
use cap_offer::AnyCat;
use cap_report::{Done, LineAnswer, Situation};
use cap_seat::Seat;
use cap_terms::RuleSet;
use std::alloc::Global;

/// How far a run has come: what stands, the seats before its categories, and what the session at hand has done, its events and its answers.
#[derive(Drop)]
pub(crate) struct Course<S> {
    pub(crate) standing: Situation<AnyCat, (), MorData>,
    pub(crate) seats: Vec<S>,
    pub(crate) events: Vec<(CatNo, Entry<ObjData, MorData>)>,
    pub(crate) done: Vec<Done<MorData>>,
}

/// Notes what a command answered, and binds it to the command's name.
fn note<S>(
    alloc: Global,
    course: &mut Course<S>,
    command: &Command<CheckedObj, MorLit>,
    answer: LineAnswer<MorData>,
) -> Result<(), NoMemory>
    requires few { length course.old.done.items < 2 ^ 32 }
    ensures { OnOk result (Notes course.old command.now answer course.new) }
{
    let copy = copy_answer(alloc, &answer)?;
    bind(&mut course.standing, bound_name(command), copy)?;
    let command = course.done.len() as u32;
    course.done.push(Done { command, answer })?;
    Ok(())
}

/// Runs a command, binds its answer, and notes it.
pub(crate) fn run_one<D: Desk<AnyCat> + Drop>(
    alloc: Global,
    rules: &RuleSet,
    course: &mut Course<Seat<AnyCat, D>>,
    command: &Command<CheckedObj, MorLit>,
) -> Result<(), NoMemory>
    requires rules { rules.now ≡ rule_table }
    requires few { length course.old.done.items < 2 ^ 32 }
    requires prepared { IsPrepared course.old.standing course.old.seats.items command.now }
    ensures { OnOk result (RunsOne D.others course.old command.now course.new) }
{
    let seats = course.seats.as_mut_slice();
    let answer = run_command(
        alloc,
        rules,
        &course.standing,
        seats,
        command,
        &mut course.events,
    )?;
    note(alloc, course, command, answer)
}

/// Runs commands one after another; before each the session passes the gate.
pub(crate) fn run_commands<D: Desk<AnyCat> + Drop, G: Gate>(
    alloc: Global,
    rules: &RuleSet,
    course: &mut Course<Seat<AnyCat, D>>,
    commands: &[Placed<Command<CheckedObj, MorLit>>],
    session: SessionNo,
    gate: &G,
) -> Result<(), NoMemory>
    requires rules { rules.now ≡ rule_table }
    requires comes { Comes session course.old commands.now }
    ensures { OnOk result (RunsAll D.others session course.old commands.now course.new) }
{
    'commands: for command in commands {
        let number = course.done.len() as u32;
        gate.pass(session.0, GatePlace::Command(number));
        run_one(alloc, rules, course, &command.node)?;
    }
    Ok(())
}
