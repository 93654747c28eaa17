// The lock and its seats.
ghost use Rattle.std.specs.Prelude.{◌≡◌, ◌<◌};

use crate::logged::Logged;
use crate::plays::{Both, Compare, Cut, Draw, InLine, Look, Serve};
use crate::view::{Opening, View};
use atomic_table::{Refused, Seat, Table};
use cap_names::NoMemory;
use std::alloc::Global;
use std::snapshot::Snapshot;
use std::sync::Wait;
use std::thread::yield_now;

// The word of the next ticket.
const TICKETS: usize = 0;

// The word of the ticket that is served.
const SERVING: usize = 1;

// How often a seat looks before it sleeps.
const MOST_LOOKS: u32 = 64;

// The slot of the state.
const STATE: usize = 0;

type Place<S> = Seat<Option<S>, View<<S as Logged>::Entry, <S as Logged>::Label>>;

/// A state that seats take in turn.
#[derive(Drop)]
pub struct Turn<S: Logged> {
    table: Table<Option<S>, View<S::Entry, S::Label>, Opening<S>, InLine, Global>,
    ghost sized: { (table.shared.table_id.words ≡ 2) × (table.shared.table_id.slots ≡ 1) },
}

/// The right to take turns.
#[derive(Drop)]
pub struct TurnSeat<S: Logged> {
    place: Seat<Option<S>, View<S::Entry, S::Label>>,
    ghost some_share: { 0 < place.me.0.shares },
}

impl<S: Logged> Turn<S> {
    ghost use Rattle.std.specs.Prelude.{◌≡◌, ◌+◌, ◌<◌, ◌≤◌, ◌⊎◌, IfOk, MatchOption, Some, length};
    ghost use Rattle.cap_turn.specs.Line.{StartsWith};
    ghost use Rattle.cap_turn.specs.Steps.{Waits, Served};
    ghost use Rattle.cap_turn.specs.Seats.{IsOf, seen, added, shares as shares_of, seat_label, IsOutside, HasTurn, opening, all_shares};

    /// A turn with this state, and a seat with all its shares, of which there is at least one.
    pub fn open(alloc: Global, state: S, shares: u32) -> Result<(Turn<S>, TurnSeat<S>), NoMemory>
        requires { 1 ≤ shares }
        ensures turn { IfOk result (λ t. (opening t.0 ≡ state) × (all_shares t.0 ≡ shares) × IsOf t.0 t.1) }
        ensures seat { IfOk result (λ t. IsOutside t.1 × (shares_of t.1 ≡ shares) × (seen t.1 ≡ S.log state) × (added t.1 ≡ 0) × (seat_label t.1 ≡ Some (S.label state))) }
    {
        let about = Opening {
            state: Snapshot::of(&state),
            shares,
        };
        let mut slots = Vec::with_capacity(alloc, 1)?;
        slots.push_reserved(Some(state));
        match Table::new(alloc, &[0, 0], slots, &about) {
            Ok((table, place)) => Ok((Turn { table }, TurnSeat { place })),
            Err(Refused { slots: _ }) => Err(NoMemory),
        }
    }

    /// Waits until the seat is served, and takes the state.
    pub fn take<R: Wait>(&self, rt: &R, seat: &mut TurnSeat<S>) -> S
        requires turn { IsOf self.now seat.old }
        requires outside { IsOutside seat.old }
        ensures turn { IsOf self.now seat.new × HasTurn seat.new }
        ensures label { (Some (S.label result) ≡ seat_label seat.old) × (seat_label seat.new ≡ seat_label seat.old) }
        ensures grown { StartsWith (S.log result) (seen seat.old) × (seen seat.new ≡ S.log result) }
        ensures kept { (shares_of seat.new ≡ shares_of seat.old) × (added seat.new ≡ added seat.old) }
    {
        let mine = self
            .table
            .shared
            .fetch_add::<Draw>(&mut seat.place, TICKETS, 1);
        self.wait(rt, &mut seat.place, mine);
        self.table
            .shared
            .exchange(&mut seat.place, STATE, None)
            .unwrap()
    }

    // Sleeps until the ticket is served.
    fn wait<R: Wait>(&self, rt: &R, place: &mut Place<S>, mine: u64)
        requires turn { place.old.table_id ≡ self.now.table.shared.table_id }
        requires waits { Waits place.old.me mine }
        ensures turn { (place.new.table_id ≡ place.old.table_id) × (place.new.id ≡ place.old.id) }
        ensures served { Served S.log S.label place.old.me place.new.me }
    {
        let mut looks = 0;
        for _ in rt.forever() {
            let Some(found) = self.look(place, mine) else {
                return;
            };
            if looks < MOST_LOOKS {
                looks += 1;
                yield_now();
            } else {
                let expected = (found % (1 << 32)) as u32;
                self.table.shared.park(rt, SERVING, expected);
            }
        }
        unreachable!()
    }

    // The ticket that is served, if it is another.
    fn look(&self, place: &mut Place<S>, mine: u64) -> Option<u64>
        requires turn { place.old.table_id ≡ self.now.table.shared.table_id }
        requires waits { Waits place.old.me mine }
        ensures turn { (place.new.table_id ≡ place.old.table_id) × (place.new.id ≡ place.old.id) }
        ensures looked { MatchOption result (Served S.log S.label place.old.me place.new.me) (λ _. place.new.me ≡ place.old.me) }
    {
        let found = self.table.shared.load::<Look<S>>(place, SERVING);
        if found == mine { None } else { Some(found) }
    }

    /// Gives the state back, with what was added to its list, and serves the next.
    pub fn give(&self, seat: &mut TurnSeat<S>, state: S)
        requires turn { IsOf self.now seat.old × HasTurn seat.old }
        requires label { Some (S.label state) ≡ seat_label seat.old }
        requires grown { StartsWith (S.log state) (seen seat.old) }
        ensures turn { IsOf self.now seat.new × IsOutside seat.new }
        ensures seen { seen seat.new ≡ S.log state }
        ensures added { added seat.new + length (seen seat.old) ≡ added seat.old + length (S.log state) }
        ensures kept { (shares_of seat.new ≡ shares_of seat.old) × (seat_label seat.new ≡ seat_label seat.old) }
    {
        let shared = &self.table.shared;
        drop(shared.exchange(&mut seat.place, STATE, Some(state)));
        shared.fetch_add::<Serve<S>>(&mut seat.place, SERVING, 1);
        shared.wake_all(SERVING);
    }

    /// A new seat with one of the seat's shares, which has seen as much and has added nothing.
    pub fn split(&self, seat: &mut TurnSeat<S>) -> TurnSeat<S>
        requires turn { IsOf self.now seat.old × IsOutside seat.old }
        requires shares { 2 ≤ shares_of seat.old }
        ensures turn { IsOf self.now seat.new × IsOutside seat.new × IsOf self.now result × IsOutside result }
        ensures shares { (shares_of seat.new + 1 ≡ shares_of seat.old) × (shares_of result ≡ 1) }
        ensures seen { (seen seat.new ≡ seen seat.old) × (seen result ≡ seen seat.old) }
        ensures added { (added seat.new ≡ added seat.old) × (added result ≡ 0) }
        ensures label { (seat_label seat.new ≡ seat_label seat.old) × (seat_label result ≡ seat_label seat.old) }
    {
        let place = self.table.shared.split_seat::<Cut>(&mut seat.place);
        TurnSeat { place }
    }

    /// Joins another seat into this one.
    pub fn join(&self, seat: &mut TurnSeat<S>, other: TurnSeat<S>)
        requires turn { IsOf self.now seat.old × IsOutside seat.old }
        requires other { IsOf self.now other × IsOutside other }
        ensures turn { IsOf self.now seat.new × IsOutside seat.new }
        ensures shares { shares_of seat.new ≡ shares_of seat.old + shares_of other }
        ensures seen { StartsWith (seen seat.new) (seen seat.old) × StartsWith (seen seat.new) (seen other) }
        ensures longer { (seen seat.new ≡ seen seat.old) ⊎ (seen seat.new ≡ seen other) }
        ensures added { added seat.new ≡ added seat.old + added other }
        ensures label { seat_label seat.new ≡ seat_label seat.old }
    {
        let TurnSeat { place } = other;
        let shared = &self.table.shared;
        shared.join_seat::<Both>(&mut seat.place, place);
        shared.load::<Compare>(&mut seat.place, SERVING);
    }

    /// The state, once every other seat was joined into this one.
    pub fn close(self, seat: TurnSeat<S>) -> S
        requires turn { IsOf self seat × IsOutside seat }
        requires shares { shares_of seat ≡ all_shares self }
        ensures label { (S.label result ≡ S.label (opening self)) × (Some (S.label result) ≡ seat_label seat) }
        ensures grown { StartsWith (S.log result) (seen seat) }
        ensures length { length (S.log result) ≡ length (S.log (opening self)) + added seat }
    {
        let Turn { table } = self;
        let TurnSeat { place } = seat;
        let mut closed = table.close_with(place);
        let state = closed.take(STATE).unwrap();
        closed.free();
        state
    }
}
