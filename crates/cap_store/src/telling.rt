// Values told with the objects that they name.
ghost use Rattle.std.specs.Prelude.{◌≡◌, ◌<◌, ◌≤◌, ◌+◌, ◌++◌, IfOk, Some, length, map};
ghost use Rattle.std.specs.List.{All};
ghost use Rattle.cap_ops.specs.Cells.{IsShortAnswer};
ghost use Rattle.cap_ops.specs.Mentions.{mentioned};
ghost use Rattle.cap_ops.specs.Told.{told_in};
ghost use Rattle.cap_history.specs.May.{IsShortTold};
ghost use Rattle.cap_history.specs.Reading.{AreTold};

use cap_history::Told;
use cap_keys::mentioned;
use cap_names::{Handle, Items, NoMemory};
use cap_ops::{Datum, Value};
use std::alloc::Global;

/// The object of a handle, where the new ones come behind the others.
fn object_at<'a, O>(objects: &'a [O], fresh: &'a [O], h: Handle) -> &'a O
    requires { h.0 < length objects.now + length fresh.now }
    ensures { told_in (objects.now ++ fresh.now) h ≡ Some result.now }
{
    let place = h.0 as usize;
    if place < objects.len() {
        &objects[place]
    } else {
        &fresh[place - objects.len()]
    }
}

fn told_objects<O: Datum>(
    alloc: Global,
    objects: &[O],
    fresh: &[O],
    handles: &[Handle],
) -> Result<Vec<(Handle, O)>, NoMemory>
    requires { All (λ h. h.0 < length objects.now + length fresh.now) handles.now }
    ensures handles { IfOk result (λ all. map (λ x. x.0) all.items ≡ handles.now) }
    ensures objects { IfOk result (λ all. All (λ x. told_in (objects.now ++ fresh.now) x.0 ≡ Some x.1) all.items) }
{
    let mut told = Vec::new(alloc);
    for h in handles {
        let object = object_at(objects, fresh, *h).copy(alloc)?;
        told.push((*h, object))?;
    }
    Ok(told)
}

/// A value with the objects that it names.
pub(crate) fn told<O: Datum, M: Datum>(
    alloc: Global,
    objects: &[O],
    fresh: &[O],
    value: Value<M>,
) -> Result<Told<O, M>, NoMemory>
    requires there { All (λ h. h.0 < length objects.now + length fresh.now) (mentioned value) }
    requires short { IsShortAnswer value }
    ensures value { IfOk result (λ t. t.value ≡ value) }
    ensures told { IfOk result (λ t. AreTold (objects.now ++ fresh.now) t) }
    ensures short { IfOk result IsShortTold }
{
    let handles = mentioned(alloc, &value)?;
    let told = told_objects(alloc, objects, fresh, &handles)?;
    Ok(Told {
        value,
        objects: Items::new(told),
    })
}
