// The faults of what stands before the sessions.
ghost use Rattle.std.specs.Prelude.{◌≡◌, ◌++◌, ◌∷◌, [], IfOk, OnOk, MatchResult, count_by, nat_le};
ghost use Rattle.cap_block_faults.specs.Marks.{faults, first};
ghost use Rattle.cap_faults.specs.Commands.{scope, command_marks};
ghost use Rattle.cap_faults.specs.Scripts.{over_mark, is_block, is_category, item_marks, bound_in, bound_by_part, values_behind, prelude_faults, category_marks, Tells};

use crate::blocks::block_fault;
use crate::commands::{bind, put_command};
use crate::fault::CheckFault;
use crate::values::Value;
use cap_block_faults::{Mark, Part, first_fault, has_block, has_category, prime_mark, told};
use cap_grammar::{Command, Item, MorTok, ObjTok, Over, Place};
use cap_names::{BadScript, Name, Reason};
use std::alloc::{AllocError, Global};

fn over_mark(parts: &[Part], over: Over) -> Mark
    ensures { result ≡ over_mark parts.now over }
{
    match over {
        Over::Vec(prime) => prime_mark(prime),
        Over::Add(table) | Over::Freyd(table) | Over::Rep(table) => {
            told(!has_block(parts, table), Reason::Known)
        }
    }
}

fn is_block(part: &Part) -> bool
    ensures { result ≡ is_block part.now }
{
    matches!(part.node, Item::Block(_))
}

fn is_category(part: &Part) -> bool
    ensures { result ≡ is_category part.now }
{
    matches!(part.node, Item::Category { .. })
}

fn has_blocks(parts: &[Part], most: usize) -> bool
    ensures { result ≡ nat_le most (count_by is_block parts.now) }
{
    most <= parts.iter().filter(|part| is_block(part)).count()
}

fn has_categories(parts: &[Part], most: usize) -> bool
    ensures { result ≡ nat_le most (count_by is_category parts.now) }
{
    most <= parts.iter().filter(|part| is_category(part)).count()
}

fn category_fault(
    alloc: Global,
    full: bool,
    parts: &[Part],
    name: Name,
    over: Over,
    places: &[Place],
) -> Result<Option<BadScript>, AllocError>
    ensures { IfOk result (λ f. f ≡ first (faults places.now (category_marks full parts.now name over))) }
{
    let mut marks = Vec::new(alloc);
    marks.push(told(full, Reason::Limit))?;
    marks.push(told(has_category(parts, name), Reason::Taken))?;
    marks.push(None)?;
    marks.push(over_mark(parts, over))?;
    Ok(first_fault(places, &marks))
}

/// The first fault of a command: whether it is one too many, the parts before it, how many names its scope has bound, and the values that are bound.
pub fn command_fault(
    alloc: Global,
    full: bool,
    parts: &[Part],
    own: usize,
    values: &[Value],
    command: &Command<ObjTok, MorTok>,
    places: &[Place],
) -> Result<Option<BadScript>, AllocError>
    ensures { IfOk result (λ f. f ≡ first (faults places.now (command_marks (scope full parts.now own values.now) command.now))) }
{
    let mut marks = Vec::new(alloc);
    put_command(&mut marks, full, parts, own, values, command)?;
    Ok(first_fault(places, &marks))
}

fn part_fault(
    alloc: Global,
    full: bool,
    parts: &[Part],
    values: &[Value],
    part: &Part,
) -> Result<Option<BadScript>, AllocError>
    ensures { IfOk result (λ f. f ≡ first (faults part.now.places (item_marks full parts.now values.now part.now.node))) }
{
    let places = part.places.as_slice();
    match &part.node {
        Item::Block(block) => {
            let full = full || has_blocks(parts, 16);
            block_fault(alloc, full, parts, block, places)
        }
        Item::Category { name, over } => {
            let full = full || has_categories(parts, 16);
            category_fault(alloc, full, parts, *name, *over, places)
        }
        Item::Command(command) => {
            command_fault(alloc, full, parts, values.len(), values, command, places)
        }
    }
}

fn bind_part(values: &mut Vec<Value>, part: &Part) -> Result<(), AllocError>
    ensures { OnOk result (values.new.items ≡ values.old.items ++ bound_by_part values.old.items part.now) }
{
    match &part.node {
        Item::Command(command) => bind(values, command),
        _ => Ok(()),
    }
}

/// The values that the prelude binds, or its first fault.
pub fn prelude_values(alloc: Global, parts: &[Part]) -> Result<Vec<Value>, CheckFault>
    ensures { MatchResult result (λ values. (prelude_faults parts.now ≡ []) × (values.items ≡ values_behind bound_by_part [] parts.now)) (Tells (prelude_faults parts.now)) }
{
    let mut values = Vec::new(alloc);
    'parts: for (i, part) in parts.iter().enumerate() {
        let fault = part_fault(alloc, 4096 <= i, &parts[..i], &values, part)?;
        if let Some(fault) = fault {
            return Err(CheckFault::Bad(fault));
        }
        bind_part(&mut values, part)?;
    }
    Ok(values)
}
