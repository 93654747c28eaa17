// The board of a session before a category.
ghost use Rattle.std.specs.Prelude.{◌≡◌, IfOk, OnErr};
ghost use Rattle.cap_ops.specs.Arrows.{over, arguments};
ghost use Rattle.cap_ops.specs.Primitives.{prime_of};
ghost use Rattle.cap_ops.specs.Told.{Known};
ghost use Rattle.cap_ops.specs.Values.{Fits};
ghost use Rattle.cap_board.specs.Board.{Asks, Puts, MayPut};
ghost use Rattle.cap_seat.specs.Seats.{told_at, state_of, Holds};
ghost use Rattle.cap_seat.specs.Onward.{GoesOn, goes-on-none, goes-on-more};

use crate::known::object_among;
use crate::seat::Seat;
use cap_board::{Asked, Board, PutAnswer};
use cap_desk::Desk;
use cap_names::{Handle, NoMemory};
use cap_ops::{Key, Objects, Offer, PrimOut};
use std::alloc::Global;

impl<C: Offer, D: Desk<C> + Drop> Objects<C::O> for Seat<C, D> {
    ghost told = { λ s. told_at s };

    fn object(&self, h: Handle) -> &C::O {
        match object_among(self.known.as_slice(), h) {
            Some(object) => object,
            None => unreachable!(),
        }
    }
}

impl<C: Offer, D: Desk<C> + Drop> Board<C> for Seat<C, D> {
    ghost state = { λ s. state_of s };

    ghost holds = { λ s. Holds (C.offered s.offer) C.O.cells_of C.M.cells_of s };

    ghost onward = { λ s t. GoesOn C.O.cells_of C.M.cells_of D.others s t };

    fn ask(&mut self, alloc: Global, key: &Key<C::M>) -> Result<Asked<C::M>, NoMemory>
        requires fits { Fits (over (prime_of (C.offered self.old.offer))) key.now.op.0 (arguments key.now.args) }
        requires known { Known (C.offered self.old.offer).category (told_at self.old) (arguments key.now.args) }
        requires holds { Holds (C.offered self.old.offer) C.O.cells_of C.M.cells_of self.old }
        ensures holds { Holds (C.offered self.new.offer) C.O.cells_of C.M.cells_of self.new }
        ensures onward { GoesOn C.O.cells_of C.M.cells_of D.others self.old self.new }
        ensures asks { IfOk result (λ a. Asks (C.offered self.old.offer) (state_of self.old) (told_at self.old) key.now.op.0 key.now.args a (state_of self.new) (told_at self.new)) }
        ensures err { OnErr result ((state_of self.new ≡ state_of self.old) × (told_at self.new ≡ told_at self.old)) }
    {
        self.try_ask(alloc, key)
    }

    fn put(
        &mut self,
        alloc: Global,
        key: &Key<C::M>,
        out: PrimOut<C::O, C::M>,
    ) -> Result<PutAnswer<C::M>, NoMemory>
        requires fits { Fits (over (prime_of (C.offered self.old.offer))) key.now.op.0 (arguments key.now.args) }
        requires known { Known (C.offered self.old.offer).category (told_at self.old) (arguments key.now.args) }
        requires may { MayPut (C.offered self.old.offer) (state_of self.old) (told_at self.old) key.now.op.0 key.now.args out }
        requires holds { Holds (C.offered self.old.offer) C.O.cells_of C.M.cells_of self.old }
        ensures holds { Holds (C.offered self.new.offer) C.O.cells_of C.M.cells_of self.new }
        ensures onward { GoesOn C.O.cells_of C.M.cells_of D.others self.old self.new }
        ensures puts { IfOk result (λ a. Puts (C.offered self.old.offer) (state_of self.old) (told_at self.old) key.now.op.0 key.now.args out a (state_of self.new) (told_at self.new)) }
        ensures err { OnErr result ((state_of self.new ≡ state_of self.old) × (told_at self.new ≡ told_at self.old)) }
    {
        self.try_put(alloc, key, out)
    }

    ghost stays = { λ s. goes-on-none C.O.cells_of C.M.cells_of D.others D.are_others s };

    ghost goes_on = { λ a b c g h. goes-on-more C.O.cells_of C.M.cells_of D.others D.are_others a b c g h };

    ghost told_objects = { λ s h. h.objects };
}
