// Answers for the report and for the names that stand for them.
ghost use Rattle.std.specs.Prelude.{◌≡◌, ◌++◌, IfOk, OnOk};
ghost use Rattle.cap_report.specs.Named.{bound_name};

use cap_checked::CheckedObj;
use cap_data::MorData;
use cap_grammar::Command;
use cap_history::HeldPlan;
use cap_keys::copy_arrow;
use cap_names::{Items, MorLit, Name, NoMemory};
use cap_offer::AnyCat;
use cap_ops::{Arrow, Datum};
use cap_report::{Bound, LineAnswer, Made, Situation};
use std::alloc::Global;

fn copy_arrows<M: Datum>(alloc: Global, arrows: &[Arrow<M>]) -> Result<Vec<Arrow<M>>, NoMemory>
    ensures { IfOk result (λ copy. copy.items ≡ arrows.now) }
{
    let mut copy = Vec::new(alloc);
    for f in arrows {
        copy.push(copy_arrow(alloc, f)?)?;
    }
    Ok(copy)
}

/// An equal answer.
pub(crate) fn copy_answer<M: Datum>(
    alloc: Global,
    answer: &LineAnswer<M>,
) -> Result<LineAnswer<M>, NoMemory>
    ensures { IfOk result (λ copy. copy ≡ answer.now) }
{
    match answer {
        LineAnswer::Category => Ok(LineAnswer::Category),
        LineAnswer::Registered { op, weight } => Ok(LineAnswer::Registered {
            op: *op,
            weight: *weight,
        }),
        LineAnswer::Final => Ok(LineAnswer::Final),
        LineAnswer::Plan(plan) => Ok(LineAnswer::Plan(HeldPlan::new(alloc, plan.plan())?)),
        LineAnswer::Object(handle) => Ok(LineAnswer::Object(*handle)),
        LineAnswer::Morphism(arrow) => Ok(LineAnswer::Morphism(copy_arrow(alloc, arrow)?)),
        LineAnswer::Tuple(arrows) => {
            let copies = copy_arrows(alloc, arrows.as_slice())?;
            Ok(LineAnswer::Tuple(Items::new(copies)))
        }
        LineAnswer::Truth(value) => Ok(LineAnswer::Truth(*value)),
        LineAnswer::Nothing => Ok(LineAnswer::Nothing),
        LineAnswer::Refused(why) => Ok(LineAnswer::Refused(*why)),
    }
}

/// The name that a command binds.
pub(crate) fn bound_name(command: &Command<CheckedObj, MorLit>) -> Option<Name>
    ensures { result ≡ bound_name command.now }
{
    match command {
        Command::Register { .. } => None,
        Command::Finalise { .. } => None,
        Command::Plan { .. } => None,
        Command::Object { name, .. } => Some(*name),
        Command::Src { name, .. } => Some(*name),
        Command::Tgt { name, .. } => Some(*name),
        Command::Let { name, .. } => Some(*name),
        Command::Call { name, .. } => Some(*name),
    }
}

/// Puts copies of the names of tables behind the others.
fn push_tables(copies: &mut Items<(Name, ())>, tables: &[(Name, ())]) -> Result<(), NoMemory>
    ensures { OnOk result (copies.new ≡ copies.old ++ tables.now) }
{
    'tables: for table in tables {
        copies.push((table.0, ()))?;
    }
    Ok(())
}

/// Puts copies of the categories that were made behind the others.
fn push_categories(
    alloc: Global,
    copies: &mut Items<Made<AnyCat>>,
    categories: &[Made<AnyCat>],
) -> Result<(), NoMemory>
    ensures { OnOk result (copies.new ≡ copies.old ++ categories.now) }
{
    'categories: for made in categories {
        copies.push(Made {
            name: made.name,
            number: made.number,
            category: made.category.copy(alloc)?,
        })?;
    }
    Ok(())
}

/// Puts copies of the names that were bound behind the others.
fn push_bound(
    alloc: Global,
    copies: &mut Items<Bound<MorData>>,
    bound: &[Bound<MorData>],
) -> Result<(), NoMemory>
    ensures { OnOk result (copies.new ≡ copies.old ++ bound.now) }
{
    'bound: for each in bound {
        copies.push(Bound {
            name: each.name,
            answer: copy_answer(alloc, &each.answer)?,
        })?;
    }
    Ok(())
}

/// What stands, once more.
pub(crate) fn copy_standing(
    alloc: Global,
    standing: &Situation<AnyCat, (), MorData>,
) -> Result<Situation<AnyCat, (), MorData>, NoMemory>
    ensures { IfOk result (λ copy. copy ≡ standing.now) }
{
    let mut copy = Situation {
        tables: Items::new(Vec::new(alloc)),
        categories: Items::new(Vec::new(alloc)),
        bound: Items::new(Vec::new(alloc)),
    };
    push_tables(&mut copy.tables, standing.tables.as_slice())?;
    push_categories(alloc, &mut copy.categories, standing.categories.as_slice())?;
    push_bound(alloc, &mut copy.bound, standing.bound.as_slice())?;
    Ok(copy)
}
