// Copies of events and of replies.
ghost use Rattle.std.specs.Prelude.{◌≡◌, IfOk};

use crate::entries::{Event, Reply, Told};
use crate::held::HeldPlan;
use cap_keys::{copy_key, copy_result, copy_value};
use cap_names::{Handle, Items, NoMemory};
use cap_ops::Datum;
use std::alloc::Global;

fn copy_objects<O: Datum>(
    alloc: Global,
    objects: &[(Handle, O)],
) -> Result<Vec<(Handle, O)>, NoMemory>
    ensures { IfOk result (λ copy. copy.items ≡ objects.now) }
{
    let mut copy = Vec::new(alloc);
    for told in objects {
        copy.push((told.0, told.1.copy(alloc)?))?;
    }
    Ok(copy)
}

fn copy_told<O: Datum, M: Datum>(alloc: Global, told: &Told<O, M>) -> Result<Told<O, M>, NoMemory>
    ensures { IfOk result (λ t. t ≡ told.now) }
{
    let objects = copy_objects(alloc, told.objects.as_slice())?;
    Ok(Told {
        value: copy_value(alloc, &told.value)?,
        objects: Items::new(objects),
    })
}

/// An equal reply.
pub fn copy_reply<O: Datum, M: Datum>(
    alloc: Global,
    reply: &Reply<O, M>,
) -> Result<Reply<O, M>, NoMemory>
    ensures { IfOk result (λ r. r ≡ reply.now) }
{
    match reply {
        Reply::Done => Ok(Reply::Done),
        Reply::Final(plan) => Ok(Reply::Final(HeldPlan::new(alloc, plan.plan())?)),
        Reply::Object(h) => Ok(Reply::Object(*h)),
        Reply::Hit(told) => Ok(Reply::Hit(copy_told(alloc, told)?)),
        Reply::Miss(choice) => Ok(Reply::Miss(*choice)),
        Reply::Kept(told) => Ok(Reply::Kept(copy_told(alloc, told)?)),
        Reply::Found(told) => Ok(Reply::Found(copy_told(alloc, told)?)),
        Reply::PlanIs(plan) => Ok(Reply::PlanIs(HeldPlan::new(alloc, plan.plan())?)),
        Reply::AlreadyFinal { at } => Ok(Reply::AlreadyFinal { at: *at }),
        Reply::NotFinal => Ok(Reply::NotFinal),
        Reply::NotOffered => Ok(Reply::NotOffered),
        Reply::Twice { weight } => Ok(Reply::Twice { weight: *weight }),
        Reply::NameTaken { handle, object } => Ok(Reply::NameTaken {
            handle: *handle,
            object: object.copy(alloc)?,
        }),
    }
}

/// An equal event.
pub fn copy_event<O: Datum, M: Datum>(
    alloc: Global,
    event: &Event<O, M>,
) -> Result<Event<O, M>, NoMemory>
    ensures { IfOk result (λ e. e ≡ event.now) }
{
    match event {
        Event::Register { op, weight } => Ok(Event::Register {
            op: *op,
            weight: *weight,
        }),
        Event::Finalise => Ok(Event::Finalise),
        Event::Declare { name, object } => Ok(Event::Declare {
            name: *name,
            object: object.copy(alloc)?,
        }),
        Event::Ask(key) => Ok(Event::Ask(copy_key(alloc, key)?)),
        Event::Put { key, out } => Ok(Event::Put {
            key: copy_key(alloc, key)?,
            out: copy_result(alloc, out)?,
        }),
        Event::PlanOf => Ok(Event::PlanOf),
    }
}
