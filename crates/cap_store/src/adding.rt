// Adding an entry to what a state keeps.
ghost use Rattle.std.specs.Prelude.{◌≡◌, ◌≤◌, ◌+◌, ◌*◌, ◌^◌, ◌<◌, [], length, IfOk, OnOk, OnErr};
ghost use Rattle.cap_history.specs.May.{IsOfOperation, IsShortEvent, IsShortReply};
ghost use Rattle.cap_store.specs.Inside.{IsAdded, with_entry};
ghost use Rattle.cap_store.specs.Parts.{kept_of, adding_of};

use crate::lookups::push_reserved;
use crate::parts::{Added, Parts};
use cap_history::{
    Entry, Event, Reply, event_cells, final_since, name_given, objects_brought, registered_by,
    reply_cells, value_kept,
};
use cap_names::NoMemory;
use cap_ops::Datum;
use std::alloc::Global;

/// What an event with its reply adds.
pub(crate) fn added<O: Datum, M: Datum>(
    alloc: Global,
    parts: &Parts<O, M>,
    event: &Event<O, M>,
    reply: &Reply<O, M>,
) -> Result<Added<O, M>, NoMemory>
    requires operation { IsOfOperation event.now }
    requires event_short { IsShortEvent event.now }
    requires reply_short { IsShortReply reply.now }
    requires all { length parts.now.regs.weights ≡ 44 }
    requires few { length parts.now.entries.items < 200000 }
    requires light { parts.now.cells < 16777216 }
    ensures { IfOk result (λ a. IsAdded O.cells_of M.cells_of (kept_of parts.now) event.now reply.now (adding_of a)) }
{
    let place = parts.entries.len() as u32;
    Ok(Added {
        regs: registered_by(parts.regs, event, reply),
        finality: final_since(place, reply, parts.finality),
        fresh: objects_brought(alloc, parts.objects.len(), event, reply)?,
        naming: name_given(event, reply),
        keeping: value_kept(alloc, event, reply)?,
        cells: parts.cells + (event_cells(event) + reply_cells(reply)),
    })
}

/// Adds an entry with what it brings; without memory nothing changes.
pub(crate) fn add<O: Datum, M: Datum>(
    parts: &mut Parts<O, M>,
    entry: Entry<O, M>,
    added: Added<O, M>,
) -> Result<(), NoMemory>
    ensures ok { OnOk result (kept_of parts.new ≡ with_entry (kept_of parts.old) entry (adding_of added)) }
    ensures err { OnErr result (kept_of parts.new ≡ kept_of parts.old) }
{
    let Added {
        regs,
        finality,
        fresh,
        naming,
        keeping,
        cells,
    } = added;
    let mut fresh = fresh;
    parts.entries.reserve(1)?;
    parts.names.reserve(1)?;
    parts.cache.reserve(1)?;
    parts.objects.append(&mut fresh)?;
    push_reserved(&mut parts.entries, entry);
    match naming {
        Some(naming) => push_reserved(&mut parts.names, naming),
        None => {}
    }
    match keeping {
        Some(keeping) => push_reserved(&mut parts.cache, keeping),
        None => {}
    }
    parts.regs = regs;
    parts.finality = finality;
    parts.cells = cells;
    Ok(())
}
