// The entries of a command, behind the events of its session.
ghost use Rattle.std.specs.Prelude.{◌≡◌, [], ◌++◌, OnOk};
ghost use Rattle.std.specs.List.{filter_map};
ghost use Rattle.cap_seat.specs.Events.{entered};
ghost use Rattle.cap_commands.specs.Seats.{with_number};

use cap_data::{MorData, ObjData};
use cap_desk::Desk;
use cap_history::Entry;
use cap_names::{CatNo, NoMemory};
use cap_offer::AnyCat;
use cap_seat::{Seat, Try};
use std::alloc::Global;

#[tactic(auto, using(crate::proofs::OwnEntries::with_entered, crate::proofs::OwnEntries::with_full, crate::proofs::OwnEntries::reversed_twice, crate::proofs::OwnEntries::none_left))]
/// Puts the entries of what was tried behind the events, in their order, with the category's number.
fn add_entries(
    number: CatNo,
    mut tries: Vec<Try<ObjData, MorData>>,
    events: &mut Vec<(CatNo, Entry<ObjData, MorData>)>,
) -> Result<(), NoMemory>
    ensures { OnOk result (events.new.items ≡ events.old.items ++ with_number number (filter_map entered tries.items)) }
{
    tries.as_mut_slice().reverse();
    while let Some(one) = tries.pop() {
        if let Try::Entered(entry) = one {
            events.push((number, entry))?;
        }
    }
    Ok(())
}

/// Takes what a seat has tried, and puts its entries behind the events, with the category's number.
pub(crate) fn collect<D: Desk<AnyCat> + Drop>(
    alloc: Global,
    number: CatNo,
    seat: &mut Seat<AnyCat, D>,
    events: &mut Vec<(CatNo, Entry<ObjData, MorData>)>,
) -> Result<(), NoMemory>
    ensures seat { seat.new ≡ record seat.old { tries = [] } }
    ensures events { OnOk result (events.new.items ≡ events.old.items ++ with_number number (filter_map entered seat.old.tries)) }
{
    let tries = seat.take_tries(alloc);
    add_entries(number, tries, events)
}
