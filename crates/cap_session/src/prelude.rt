// The prelude of a script.
ghost use Rattle.std.specs.Prelude.{◌≡◌, ◌<◌, ◌^◌, true, length, OnOk};
ghost use Rattle.cap_field.specs.Residue.{is_tabled};
ghost use Rattle.cap_rules.specs.Table.{rule_table};
ghost use Rattle.cap_session.specs.Preludes.{MakesOne, PartComes, RunsPart, PreludeComes, RunsParts};

use crate::course::{Course, run_one};
use crate::gated::Gated;
use cap_checked::CheckedObj;
use cap_desk::{Ledger, OwnDesk};
use cap_field::Field;
use cap_grammar::{Item, Over, Placed};
use cap_io::{Gate, GatePlace};
use cap_names::{CatNo, MorLit, Name, NoMemory, SessionNo};
use cap_offer::AnyCat;
use cap_ops::Kind;
use cap_report::{Done, LineAnswer, Made};
use cap_seat::Seat;
use cap_terms::RuleSet;
use std::alloc::Global;

/// A seat before a category's state that nobody else has, behind a gate.
pub(crate) type OwnSeat<'g, G> = Seat<AnyCat, Gated<'g, OwnDesk<AnyCat>, G>>;

/// The field over a prime of the table.
fn field_over(prime: u64) -> Field
    requires { is_tabled prime ≡ true }
    ensures { result ≡ prime }
{
    match Field::from_prime(prime as u32) {
        Some(field) => field,
        None => unreachable!(),
    }
}

/// Makes the category of matrices over a prime, with a seat of the prelude before it.
fn make_category<'g, G: Gate>(
    alloc: Global,
    course: &mut Course<OwnSeat<'g, G>>,
    name: Name,
    prime: u64,
    gate: &'g G,
) -> Result<(), NoMemory>
    requires tabled { is_tabled prime ≡ true }
    requires categories { length course.old.standing.categories < 256 }
    requires few { length course.old.done.items < 2 ^ 32 }
    ensures { OnOk result (MakesOne course.old name prime course.new) }
{
    let field = field_over(prime);
    let number = CatNo(course.standing.categories.len() as u8);
    let ledger = Ledger::new(alloc, AnyCat::new(alloc, Kind::Mat, field)?);
    let desk = Gated::new(OwnDesk::new(ledger), gate, number);
    course.seats.push(Seat::new(alloc, desk, SessionNo(0)))?;
    let category = AnyCat::new(alloc, Kind::Mat, field)?;
    course.standing.categories.push(Made {
        name,
        number,
        category,
    })?;
    let command = course.done.len() as u32;
    course.done.push(Done {
        command,
        answer: LineAnswer::Category,
    })?;
    Ok(())
}

/// Runs a part of the prelude.
fn run_part<'g, G: Gate>(
    alloc: Global,
    rules: &RuleSet,
    course: &mut Course<OwnSeat<'g, G>>,
    part: &Item<CheckedObj, MorLit>,
    gate: &'g G,
) -> Result<(), NoMemory>
    requires rules { rules.now ≡ rule_table }
    requires comes { PartComes course.old part.now }
    ensures { OnOk result (RunsPart course.old part.now course.new) }
{
    match part {
        Item::Category {
            name,
            over: Over::Vec(prime),
        } => make_category(alloc, course, *name, *prime, gate),
        Item::Command(command) => run_one(alloc, rules, course, command),
        _ => unreachable!(),
    }
}

/// Runs the parts of the prelude one after another; before each the prelude passes the gate.
pub(crate) fn run_parts<'g, G: Gate>(
    alloc: Global,
    rules: &RuleSet,
    course: &mut Course<OwnSeat<'g, G>>,
    parts: &[Placed<Item<CheckedObj, MorLit>>],
    gate: &'g G,
) -> Result<(), NoMemory>
    requires rules { rules.now ≡ rule_table }
    requires comes { PreludeComes course.old parts.now }
    ensures { OnOk result (RunsParts parts.now course.new) }
{
    'parts: for part in parts {
        let number = course.done.len() as u32;
        gate.pass(0, GatePlace::Command(number));
        run_part(alloc, rules, course, &part.node, gate)?;
    }
    Ok(())
}
