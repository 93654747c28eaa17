// A category that sessions share.
ghost use Rattle.std.specs.Prelude.{◌≡◌, ◌≤◌, IfOk};
ghost use Rattle.cap_turn.specs.Seats.{turn_place, opening};
ghost use Rattle.cap_shares.specs.Shares.{opened, fewer, given, Joins, Closes};

use crate::behind::Behind;
use crate::seats::SessionSeat;
use cap_data::ObjData;
use cap_desk::Ledger;
use cap_names::NoMemory;
use cap_offer::AnyCat;
use cap_seat::Memory;
use cap_turn::{Turn, TurnSeat};
use std::alloc::Global;
use std::marker::Model;

/// A category that sessions share: its turn, the seat at it that has all shares which sessions don't have, and what the prelude was told.
#[derive(Drop)]
pub struct SharedCategory {
    turn: Turn<Behind>,
    seat: TurnSeat<Behind>,
    memory: Memory<ObjData>,
}

impl Model for SharedCategory {
    ghost use Rattle.std.specs.Prelude.{◌≡◌, Some};
    ghost use Rattle.cap_turn.specs.Seats.{turn_place, opening, all_shares, seat_label, seen, added, shares, IsOf, IsOutside};
    ghost use Rattle.cap_shares.specs.Shares.{Shared};

    ghost Value = { Shared };

    ghost view = { λ k. record { place = turn_place k.turn; offer = (opening k.turn).ledger.offer; first = (opening k.turn).ledger.entries; all = all_shares k.turn; shares = shares k.seat; seen = seen k.seat; added = added k.seat; memory = k.memory } };

    ghost invariant = { λ k. IsOf k.turn k.seat × IsOutside k.seat × (seat_label k.seat ≡ Some (opening k.turn).ledger.offer) };
}

impl SharedCategory {
    /// Puts a category's state behind a turn with so many shares, of which there is at least one.
    pub fn open(
        alloc: Global,
        ledger: Ledger<AnyCat>,
        memory: Memory<ObjData>,
        shares: u32,
    ) -> Result<SharedCategory, NoMemory>
        requires { 1 ≤ shares }
        ensures { IfOk result (λ k. k ≡ opened k.place ledger memory shares) }
    {
        let (turn, seat) = Turn::open(alloc, Behind { ledger }, shares)?;
        Ok(SharedCategory { turn, seat, memory })
    }

    /// The turn.
    pub fn turn(&self) -> &Turn<Behind>
        ensures place { turn_place result.now ≡ self.now.place }
        ensures offer { (opening result.now).ledger.offer ≡ self.now.offer }
    {
        &self.turn
    }

    /// What the prelude was told.
    pub fn memory(&self) -> &Memory<ObjData>
        ensures { result.now ≡ self.now.memory }
    {
        &self.memory
    }

    /// A session's seat, with one of the shares.
    pub fn split(&mut self) -> SessionSeat
        requires { 2 ≤ self.old.shares }
        ensures rest { self.new ≡ fewer self.old }
        ensures seat { result ≡ given self.old }
    {
        let seat = self.turn.split(&mut self.seat);
        SessionSeat::new(seat)
    }

    /// Takes a session's seat back.
    pub fn join(&mut self, seat: SessionSeat)
        requires { seat.place ≡ self.old.place }
        ensures { Joins self.old seat self.new }
    {
        self.turn.join(&mut self.seat, seat.into_seat());
    }

    /// The state, once all shares are back.
    pub fn close(self) -> Ledger<AnyCat>
        requires { self.shares ≡ self.all }
        ensures { Closes self result }
    {
        self.turn.close(self.seat).ledger
    }
}
