// A command at the seat of its category.
ghost use Rattle.std.specs.Prelude.{◌≡◌, Some, IfOk, IsSome};
ghost use Rattle.cap_ops.specs.Derivations.{IsWeight};
ghost use Rattle.cap_rules.specs.Table.{rule_table};
ghost use Rattle.cap_data.specs.Counts.{cells_in_object, cells_in_morphism};
ghost use Rattle.cap_offer.specs.Labels.{any_offer};
ghost use Rattle.cap_accounts.specs.Commands.{object_at};
ghost use Rattle.cap_seat.specs.Seats.{Holds};
ghost use Rattle.cap_commands.specs.Doing.{IsAtSeat, DoesAt, in_category};

use crate::arms::{run_call, run_let, run_object};
use cap_accounts::object_at;
use cap_checked::CheckedObj;
use cap_data::MorData;
use cap_desk::Desk;
use cap_grammar::{Command, RefTok};
use cap_names::{Handle, MorLit, NoMemory};
use cap_offer::AnyCat;
use cap_report::{LineAnswer, Made, Situation};
use cap_seat::Seat;
use cap_session_lines::{finalise_line, plan_line, register_line};
use cap_terms::RuleSet;
use std::alloc::Global;

/// The written weight of a register.
fn written_weight(weight: Option<u64>) -> Option<u32>
    requires { IsWeight weight }
    ensures { result ≡ weight }
{
    match weight {
        Some(n) => Some(n as u32),
        None => None,
    }
}

/// The object that a reference names, which names one.
fn named_object(standing: &Situation<AnyCat, (), MorData>, of: &RefTok) -> Handle
    requires { IsSome (object_at standing.now of.now) }
    ensures { object_at standing.now of.now ≡ Some result }
{
    match object_at(standing, of) {
        Some(handle) => handle,
        None => unreachable!(),
    }
}

/// Runs a command at the seat of its category.
pub(crate) fn run_at<D: Desk<AnyCat> + Drop>(
    alloc: Global,
    rules: &RuleSet,
    standing: &Situation<AnyCat, (), MorData>,
    made: &Made<AnyCat>,
    seat: &mut Seat<AnyCat, D>,
    command: &Command<CheckedObj, MorLit>,
) -> Result<LineAnswer<MorData>, NoMemory>
    requires rules { rules.now ≡ rule_table }
    requires comes { IsAtSeat standing.now made.now seat.old command.now }
    requires offer { made.now.category ≡ seat.old.offer }
    requires holds { Holds (any_offer seat.old.offer) cells_in_object cells_in_morphism seat.old }
    ensures holds { Holds (any_offer seat.new.offer) cells_in_object cells_in_morphism seat.new }
    ensures does { IfOk result (λ answer. DoesAt D.others (in_category seat.old.session standing.now made.now command.now) seat.old answer seat.new) }
{
    let category = &made.category;
    match command {
        Command::Register { op, weight, .. } => {
            register_line(alloc, seat, category, *op, written_weight(*weight))
        }
        Command::Finalise { .. } => finalise_line(alloc, seat),
        Command::Plan { .. } => plan_line(alloc, seat),
        Command::Object { name, lit, .. } => run_object(alloc, seat, category, *name, lit),
        Command::Let { src, tgt, lit, .. } => {
            let a = named_object(standing, src);
            let b = named_object(standing, tgt);
            run_let(alloc, seat, category, a, b, lit)
        }
        Command::Call { op, args, .. } => {
            run_call(alloc, rules, standing, seat, category, *op, args.as_slice())
        }
        Command::Src { .. } => unreachable!(),
        Command::Tgt { .. } => unreachable!(),
    }
}
