// A session's seat at a turn.
ghost use Rattle.std.specs.Prelude.{◌≡◌, Some, IsSome};
ghost use Rattle.cap_turn.specs.Seats.{seat_place, seat_label, seen, added, shares as shares_of, IsOutside};

use crate::behind::Behind;
use cap_turn::TurnSeat;
use std::marker::Model;

/// A session's seat at a category's turn, with one share, while it holds no turn. Contracts see it as what it knows.
#[derive(Drop)]
pub struct SessionSeat {
    pub(crate) seat: TurnSeat<Behind>,
}

impl Model for SessionSeat {
    ghost use Rattle.std.specs.Prelude.{◌≡◌};
    ghost use Rattle.cap_turn.specs.Seats.{seat_place, seat_label, seen, added, shares, IsOutside};
    ghost use Rattle.cap_shares.specs.Shares.{AtTurn};

    ghost Value = { AtTurn };

    ghost view = { λ s. record { place = seat_place s.seat; label = seat_label s.seat; seen = seen s.seat; added = added s.seat } };

    ghost invariant = { λ s. IsOutside s.seat × (shares s.seat ≡ 1) };
}

impl SessionSeat {
    /// A seat with one share that holds no turn.
    pub fn new(seat: TurnSeat<Behind>) -> SessionSeat
        requires outside { IsOutside seat }
        requires share { shares_of seat ≡ 1 }
        ensures { result ≡ record { place = seat_place seat; label = seat_label seat; seen = seen seat; added = added seat } }
    {
        SessionSeat { seat }
    }

    /// The seat itself.
    pub fn into_seat(self) -> TurnSeat<Behind>
        ensures outside { IsOutside result }
        ensures share { shares_of result ≡ 1 }
        ensures is { self ≡ record { place = seat_place result; label = seat_label result; seen = seen result; added = added result } }
    {
        self.seat
    }
}
