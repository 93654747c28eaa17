// The cells of events and of replies.
ghost use Rattle.std.specs.Prelude.{◌≡◌, ◌*◌, ◌^◌, ◌≤◌, length};
ghost use Rattle.std.specs.List.{sum_by};
ghost use Rattle.cap_history.specs.Reading.{told_cells, event_cells, reply_cells};
ghost use Rattle.cap_history.specs.May.{IsShortEvent, IsShortTold, IsShortReply};

use crate::entries::{Event, Reply, Told};
use cap_keys::{key_cells, result_cells, value_cells};
use cap_names::Handle;
use cap_ops::Datum;

fn objects_cells<O: Datum>(objects: &[(Handle, O)]) -> u64
    requires { length objects.now ≤ 8 }
    ensures is { result ≡ sum_by (λ x. O.cells_of x.1) objects.now }
    ensures few { result ≤ 8 * 2 ^ 32 }
{
    let mut total: u64 = 0;
    for told in objects {
        total += told.1.cells();
    }
    total
}

fn told_cells<O: Datum, M: Datum>(told: &Told<O, M>) -> u64
    requires { IsShortTold told.now }
    ensures is { result ≡ told_cells O.cells_of M.cells_of told.now }
    ensures few { result ≤ 12 * 2 ^ 32 }
{
    value_cells(&told.value) + objects_cells(told.objects.as_slice())
}

/// How many residues and parts the data of an event have.
pub fn event_cells<O: Datum, M: Datum>(event: &Event<O, M>) -> u64
    requires { IsShortEvent event.now }
    ensures is { result ≡ event_cells O.cells_of M.cells_of event.now }
    ensures few { result ≤ 12 * 2 ^ 32 }
{
    match event {
        Event::Declare { object, .. } => object.cells(),
        Event::Ask(key) => key_cells(key),
        Event::Put { key, out } => key_cells(key) + result_cells(out),
        _ => 0,
    }
}

/// How many those of a reply have, the objects that it tells among them.
pub fn reply_cells<O: Datum, M: Datum>(reply: &Reply<O, M>) -> u64
    requires { IsShortReply reply.now }
    ensures is { result ≡ reply_cells O.cells_of M.cells_of reply.now }
    ensures few { result ≤ 12 * 2 ^ 32 }
{
    match reply {
        Reply::Hit(told) => told_cells(told),
        Reply::Kept(told) => told_cells(told),
        Reply::Found(told) => told_cells(told),
        Reply::NameTaken { object, .. } => object.cells(),
        _ => 0,
    }
}
