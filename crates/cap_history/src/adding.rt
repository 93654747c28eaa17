// What one more entry adds to what is read off a history.
ghost use Rattle.std.specs.Prelude.{◌≡◌, IfOk, length};
ghost use Rattle.cap_history.specs.Reading.{registered, later_final, brought, naming, keeping, one_or_none};
ghost use Rattle.cap_history.specs.May.{IsOfOperation};

use crate::entries::{Event, Reply};
use crate::reading::{Finality, Keeping, Naming};
use cap_keys::{copy_key, copy_objects, copy_value};
use cap_names::NoMemory;
use cap_ops::{Datum, Regs};
use std::alloc::Global;

/// The registered weights after an event with its reply.
pub fn registered_by<O, M>(regs: Regs, event: &Event<O, M>, reply: &Reply<O, M>) -> Regs
    requires operation { IsOfOperation event.now }
    requires all { length regs.weights ≡ 44 }
    ensures { result.weights ≡ registered regs.weights event.now reply.now }
{
    let mut regs = regs;
    match (event, reply) {
        (Event::Register { op, weight }, Reply::Done) => {
            regs.weights[op.0 as usize - 1] = Some(*weight);
            regs
        }
        _ => regs,
    }
}

/// When the category became final, where this reply is the next: at this place, or before.
pub fn final_since<O, M>(
    place: u32,
    reply: &Reply<O, M>,
    before: Option<Finality>,
) -> Option<Finality>
    ensures { result ≡ later_final place reply.now before }
{
    if before.is_some() {
        return before;
    }
    match reply {
        Reply::Final(plan) => Some(Finality {
            at: place,
            plan: plan.plan(),
        }),
        _ => None,
    }
}

/// Copies of the objects that an event with its reply brings, where so many are there.
pub fn objects_brought<O: Datum, M>(
    alloc: Global,
    count: usize,
    event: &Event<O, M>,
    reply: &Reply<O, M>,
) -> Result<Vec<O>, NoMemory>
    ensures { IfOk result (λ fresh. fresh.items ≡ brought count event.now reply.now) }
{
    match (event, reply) {
        (Event::Declare { object, .. }, Reply::Object(h)) => {
            let mut fresh = Vec::new(alloc);
            if h.0 as usize == count {
                fresh.push(object.copy(alloc)?)?;
            }
            Ok(fresh)
        }
        (Event::Put { out, .. }, Reply::Kept(_)) => copy_objects(alloc, out.fresh.as_slice()),
        _ => Ok(Vec::new(alloc)),
    }
}

/// The name that an event with its reply gives.
pub fn name_given<O, M>(event: &Event<O, M>, reply: &Reply<O, M>) -> Option<Naming>
    ensures { one_or_none result ≡ naming event.now reply.now }
{
    match (event, reply) {
        (Event::Declare { name, .. }, Reply::Object(h)) => Some(Naming {
            name: *name,
            handle: *h,
        }),
        _ => None,
    }
}

/// Copies of the key and of the value that an event with its reply keeps.
pub fn value_kept<O, M: Datum>(
    alloc: Global,
    event: &Event<O, M>,
    reply: &Reply<O, M>,
) -> Result<Option<Keeping<M>>, NoMemory>
    ensures { IfOk result (λ k. one_or_none k ≡ keeping event.now reply.now) }
{
    match (event, reply) {
        (Event::Put { key, .. }, Reply::Kept(told)) => Ok(Some(Keeping {
            key: copy_key(alloc, key)?,
            value: copy_value(alloc, &told.value)?,
        })),
        _ => Ok(None),
    }
}
