// What a board that is a list answers.
ghost use Rattle.std.specs.Prelude.{◌≡◌, IfOk, OnErr};
ghost use Rattle.cap_ops.specs.Arrows.{over, arguments};
ghost use Rattle.cap_ops.specs.Primitives.{prime_of};
ghost use Rattle.cap_ops.specs.Told.{Known, told_in};
ghost use Rattle.cap_ops.specs.Values.{Fits};
ghost use Rattle.cap_board.specs.Board.{Asks, Puts, MayPut};
ghost use Rattle.cap_list_board.specs.Lists.{state_of};
ghost use Rattle.cap_list_board.specs.Answers.{ListAsks, ListPuts};
ghost use Rattle.cap_list_board.specs.Holds.{Holds};
ghost use Rattle.cap_list_board.specs.Onward.{GoesOn, goes-on-none, goes-on-more};

use crate::list_board::ListBoard;
use cap_board::{Asked, Board, PutAnswer};
use cap_names::{Handle, NoMemory};
use cap_ops::{Key, Objects, Offer, PrimOut};
use std::alloc::Global;

impl<C: Offer> Objects<C::O> for ListBoard<C> {
    ghost told = { λ b. told_in b.objects };

    fn object(&self, h: Handle) -> &C::O {
        &self.objects[h.0 as usize]
    }
}

impl<C: Offer> Board<C> for ListBoard<C> {
    ghost state = { λ b. state_of b };

    ghost holds = { λ b. Holds (C.offered b.offer) b };

    ghost onward = { λ a b. GoesOn a b };

    fn ask(&mut self, alloc: Global, key: &Key<C::M>) -> Result<Asked<C::M>, NoMemory>
        requires fits { Fits (over (prime_of (C.offered self.old.offer))) key.now.op.0 (arguments key.now.args) }
        requires known { Known (C.offered self.old.offer).category (told_in self.old.objects) (arguments key.now.args) }
        requires holds { Holds (C.offered self.old.offer) self.old }
        ensures holds { Holds (C.offered self.new.offer) self.new }
        ensures onward { GoesOn self.old self.new }
        ensures asks { IfOk result (λ a. Asks (C.offered self.old.offer) (state_of self.old) (told_in self.old.objects) key.now.op.0 key.now.args a (state_of self.new) (told_in self.new.objects)) }
        ensures err { OnErr result ((state_of self.new ≡ state_of self.old) × (told_in self.new.objects ≡ told_in self.old.objects)) }
        ensures lists { IfOk result (λ a. ListAsks self.old key.now a self.new) }
        ensures same { OnErr result (self.new ≡ self.old) }
    {
        self.answer_ask(alloc, key)
    }

    fn put(
        &mut self,
        alloc: Global,
        key: &Key<C::M>,
        out: PrimOut<C::O, C::M>,
    ) -> Result<PutAnswer<C::M>, NoMemory>
        requires fits { Fits (over (prime_of (C.offered self.old.offer))) key.now.op.0 (arguments key.now.args) }
        requires known { Known (C.offered self.old.offer).category (told_in self.old.objects) (arguments key.now.args) }
        requires may { MayPut (C.offered self.old.offer) (state_of self.old) (told_in self.old.objects) key.now.op.0 key.now.args out }
        requires holds { Holds (C.offered self.old.offer) self.old }
        ensures holds { Holds (C.offered self.new.offer) self.new }
        ensures onward { GoesOn self.old self.new }
        ensures puts { IfOk result (λ a. Puts (C.offered self.old.offer) (state_of self.old) (told_in self.old.objects) key.now.op.0 key.now.args out a (state_of self.new) (told_in self.new.objects)) }
        ensures err { OnErr result ((state_of self.new ≡ state_of self.old) × (told_in self.new.objects ≡ told_in self.old.objects)) }
        ensures lists { IfOk result (λ a. ListPuts self.old key.now out a self.new) }
        ensures same { OnErr result (self.new ≡ self.old) }
    {
        self.answer_put(alloc, key, out)
    }

    ghost stays = { λ b. goes-on-none b };

    ghost goes_on = { λ a b c g h. goes-on-more a b c g h };

    ghost told_objects = { λ b h. h.objects };
}
