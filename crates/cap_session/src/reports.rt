// The report of a run.
ghost use Rattle.std.specs.Prelude.{◌≡◌, ◌<◌, ◌≤◌, length, IfOk};
ghost use Rattle.cap_session.specs.Reports.{IsReport};

use crate::prelude::OwnSeat;
use cap_data::{MorData, ObjData};
use cap_io::Gate;
use cap_names::{CatNo, Items, NoMemory};
use cap_report::{History, Report, Trace};
use std::alloc::Global;

/// The number of a category behind so many.
fn next_category(categories: usize) -> CatNo
    requires { categories < 256 }
    ensures { result.0 ≡ categories }
{
    CatNo(categories as u8)
}

/// The report of what these seats have seen and of what these traces say.
pub(crate) fn report<'g, G: Gate>(
    alloc: Global,
    mut seats: Vec<OwnSeat<'g, G>>,
    traces: Vec<Trace<ObjData, MorData>>,
) -> Result<Report<ObjData, MorData>, NoMemory>
    requires { length seats.items ≤ 256 }
    ensures { IfOk result (λ r. IsReport seats.entry.items traces.items r) }
{
    let mut histories = Vec::new(alloc);
    let mut plans = Vec::new(alloc);
    seats.as_mut_slice().reverse();
    'seats: while let Some(seat) = seats.pop() {
        let ledger = seat.into_desk().into_desk().into_ledger();
        if let Some(plan) = ledger.plan() {
            plans.push(plan)?;
        }
        let cat = next_category(histories.len());
        let entries = Items::new(ledger.into_history());
        histories.push(History { cat, entries })?;
    }
    Ok(Report {
        histories: Items::new(histories),
        traces: Items::new(traces),
        plans: Items::new(plans),
    })
}
