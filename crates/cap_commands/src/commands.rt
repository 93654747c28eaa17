// A command of a session, over its seats.
ghost use Rattle.std.specs.Prelude.{◌≡◌, ◌<◌, [], length, Some, None, IfOk, IsSome};
ghost use Rattle.cap_rules.specs.Table.{rule_table};
ghost use Rattle.cap_data.specs.Counts.{cells_in_object, cells_in_morphism};
ghost use Rattle.cap_offer.specs.Labels.{any_offer};
ghost use Rattle.cap_report.specs.Named.{category_name};
ghost use Rattle.cap_accounts.specs.Commands.{arrow_at, lacking};
ghost use Rattle.cap_seat.specs.Seats.{Holds};
ghost use Rattle.cap_commands.specs.Doing.{IsAtSeat, in_category};
ghost use Rattle.cap_commands.specs.Running.{ComesInPlace, DoesAlone, DoesInPlace, EndDoes, IsPrepared, NamesArrow, Runs};

use crate::at_seat::run_at;
use crate::collecting::collect;
use cap_accounts::{arrow_at, category_of, lacking};
use cap_checked::CheckedObj;
use cap_data::{MorData, ObjData};
use cap_desk::Desk;
use cap_grammar::{Command, RefTok};
use cap_history::Entry;
use cap_names::{CatNo, MorLit, Name, NoMemory};
use cap_offer::AnyCat;
use cap_ops::Arrow;
use cap_report::{LineAnswer, LineRefusal, Made, Situation};
use cap_seat::Seat;
use cap_terms::RuleSet;
use std::alloc::Global;

/// The category that a command names.
fn category_named(command: &Command<CheckedObj, MorLit>) -> Option<Name>
    ensures { result ≡ category_name command.now }
{
    match command {
        Command::Register { cat, .. } => Some(*cat),
        Command::Finalise { cat } => Some(*cat),
        Command::Plan { cat } => Some(*cat),
        Command::Object { cat, .. } => Some(*cat),
        Command::Let { cat, .. } => Some(*cat),
        Command::Call { cat, .. } => Some(*cat),
        Command::Src { .. } => None,
        Command::Tgt { .. } => None,
    }
}

/// The morphism that a reference names, which names one.
fn named_arrow<'a>(standing: &'a Situation<AnyCat, (), MorData>, of: &RefTok) -> &'a Arrow<MorData>
    requires { IsSome (arrow_at standing.now of.now) }
    ensures { arrow_at standing.now of.now ≡ Some result.now }
{
    match arrow_at(standing, of) {
        Some(arrow) => arrow,
        None => unreachable!(),
    }
}

#[tactic(auto, using(crate::proofs::Running::does_alone))]
/// Runs a command at the seat of its category, and puts its entries behind the events.
fn run_alone<D: Desk<AnyCat> + Drop>(
    alloc: Global,
    rules: &RuleSet,
    standing: &Situation<AnyCat, (), MorData>,
    made: &Made<AnyCat>,
    seat: &mut Seat<AnyCat, D>,
    command: &Command<CheckedObj, MorLit>,
    events: &mut Vec<(CatNo, Entry<ObjData, MorData>)>,
) -> Result<LineAnswer<MorData>, NoMemory>
    requires rules { rules.now ≡ rule_table }
    requires comes { IsAtSeat standing.now made.now seat.old command.now }
    requires offer { made.now.category ≡ seat.old.offer }
    requires taken { seat.old.tries ≡ [] }
    requires holds { Holds (any_offer seat.old.offer) cells_in_object cells_in_morphism seat.old }
    ensures { IfOk result (λ answer. DoesAlone D.others (in_category seat.old.session standing.now made.now command.now) seat.old made.now.number events.old.items answer seat.new events.new.items) }
{
    let answer = run_at(alloc, rules, standing, made, seat, command)?;
    collect(alloc, made.number, seat, events)?;
    Ok(answer)
}

/// Runs a command at the seat in this place, which is that of its category.
fn run_in_place<D: Desk<AnyCat> + Drop>(
    alloc: Global,
    rules: &RuleSet,
    standing: &Situation<AnyCat, (), MorData>,
    made: &Made<AnyCat>,
    seats: &mut [Seat<AnyCat, D>],
    place: usize,
    command: &Command<CheckedObj, MorLit>,
    events: &mut Vec<(CatNo, Entry<ObjData, MorData>)>,
) -> Result<LineAnswer<MorData>, NoMemory>
    requires rules { rules.now ≡ rule_table }
    requires inside { place < length seats.old }
    requires comes { ComesInPlace standing.now made.now seats.old place command.now }
    ensures { IfOk result (λ answer. DoesInPlace D.others standing.now made.now seats.old place command.now events.old.items answer seats.new events.new.items) }
{
    run_alone(
        alloc,
        rules,
        standing,
        made,
        &mut seats[place],
        command,
        events,
    )
}

/// Runs a command that names a category, which was made.
fn run_in_category<D: Desk<AnyCat> + Drop>(
    alloc: Global,
    rules: &RuleSet,
    standing: &Situation<AnyCat, (), MorData>,
    seats: &mut [Seat<AnyCat, D>],
    name: Name,
    command: &Command<CheckedObj, MorLit>,
    events: &mut Vec<(CatNo, Entry<ObjData, MorData>)>,
) -> Result<LineAnswer<MorData>, NoMemory>
    requires rules { rules.now ≡ rule_table }
    requires named { category_name command.now ≡ Some name }
    requires lacks { lacking standing.now command.now ≡ None }
    requires prepared { IsPrepared standing.now seats.old command.now }
    ensures { IfOk result (λ answer. Runs D.others standing.now seats.old command.now events.old.items answer seats.new events.new.items) }
{
    match category_of(standing, name) {
        Some(made) => {
            let place = made.number.0 as usize;
            run_in_place(alloc, rules, standing, made, seats, place, command, events)
        }
        None => unreachable!(),
    }
}

/// The source or the target of a morphism.
fn run_end(
    standing: &Situation<AnyCat, (), MorData>,
    command: &Command<CheckedObj, MorLit>,
) -> LineAnswer<MorData>
    requires { NamesArrow standing.now command.now }
    ensures { EndDoes standing.now command.now result }
{
    match command {
        Command::Src { of, .. } => LineAnswer::Object(named_arrow(standing, of).src),
        Command::Tgt { of, .. } => LineAnswer::Object(named_arrow(standing, of).tgt),
        _ => unreachable!(),
    }
}

#[tactic(auto, using(crate::proofs::Running::names_arrow))]
/// Runs a command of a session over its seats: its events go behind the others, and its answer is what the accounts say.
pub fn run_command<D: Desk<AnyCat> + Drop>(
    alloc: Global,
    rules: &RuleSet,
    standing: &Situation<AnyCat, (), MorData>,
    seats: &mut [Seat<AnyCat, D>],
    command: &Command<CheckedObj, MorLit>,
    events: &mut Vec<(CatNo, Entry<ObjData, MorData>)>,
) -> Result<LineAnswer<MorData>, NoMemory>
    requires rules { rules.now ≡ rule_table }
    requires prepared { IsPrepared standing.now seats.old command.now }
    ensures { IfOk result (λ answer. Runs D.others standing.now seats.old command.now events.old.items answer seats.new events.new.items) }
{
    if let Some(name) = lacking(standing, command) {
        return Ok(LineAnswer::Refused(LineRefusal::Lacks { name }));
    }
    match category_named(command) {
        Some(name) => run_in_category(alloc, rules, standing, seats, name, command, events),
        None => Ok(run_end(standing, command)),
    }
}
