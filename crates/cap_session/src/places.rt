// A session sits down at shared categories, and stands up.
ghost use Rattle.std.specs.Prelude.{◌≡◌, ◌≤◌, length, map, IfOk};
ghost use Rattle.std.specs.List.{All};
ghost use Rattle.cap_session.specs.Places.{AllFit, HoldsThere, sat_down, stood};

use crate::turn_desk::TurnDesk;
use cap_io::Gate;
use cap_names::{CatNo, NoMemory, SessionNo};
use cap_offer::AnyCat;
use cap_seat::Seat;
use cap_shares::{SessionSeat, SharedCategory};
use std::alloc::Global;
use std::sync::Wait;

/// A session's seat before a category that others share.
pub(crate) type SharedSeat<'t, R, G> = Seat<AnyCat, TurnDesk<'t, R, G>>;

/// Sits down at the categories, as a session that remembers what the prelude was told.
pub(crate) fn sit_down<'t, R: Wait, G: Gate>(
    rt: &'t R,
    alloc: Global,
    gate: &'t G,
    categories: &'t [SharedCategory],
    mut row: Vec<SessionSeat>,
    session: SessionNo,
) -> Result<Vec<SharedSeat<'t, R, G>>, NoMemory>
    requires few { length row.items ≤ 256 }
    requires inside { length row.items ≤ length categories.now }
    requires fits { AllFit categories.now row.items }
    requires holds { All HoldsThere (sat_down session categories.now row.items) }
    ensures { IfOk result (λ seats. seats.items ≡ sat_down session categories.now row.items) }
{
    let Some(seat) = row.pop() else {
        return Ok(Vec::new(alloc));
    };
    let number = row.len();
    let mut seats = sit_down(rt, alloc, gate, categories, row, session)?;
    let category = &categories[number];
    let memory = category.memory().copy(alloc)?;
    let desk = TurnDesk::new(rt, gate, category, seat, CatNo(number as u8));
    seats.push(Seat::with_memory(alloc, desk, session, memory))?;
    Ok(seats)
}

/// Stands up from the seats.
pub(crate) fn stand_up<'t, R: Wait, G: Gate>(
    alloc: Global,
    mut seats: Vec<SharedSeat<'t, R, G>>,
) -> Result<Vec<SessionSeat>, NoMemory>
    ensures { IfOk result (λ row. row.items ≡ map stood seats.entry.items) }
{
    let Some(seat) = seats.pop() else {
        return Ok(Vec::new(alloc));
    };
    let mut row = stand_up(alloc, seats)?;
    row.push(seat.into_desk().into_seat())?;
    Ok(row)
}
