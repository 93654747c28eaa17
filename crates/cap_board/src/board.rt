// Boards: what answers asks and puts of keys.
ghost use Rattle.std.specs.Prelude.{◌≡◌, IfOk, OnErr};
ghost use Rattle.cap_ops.specs.Arrows.{over, arguments};
ghost use Rattle.cap_ops.specs.Primitives.{prime_of};
ghost use Rattle.cap_ops.specs.Told.{Known};
ghost use Rattle.cap_ops.specs.Values.{Fits};
ghost use Rattle.cap_board.specs.Board.{BoardState, Asks, Puts, MayPut, ToldObjects};

use crate::answers::{Asked, PutAnswer};
use cap_names::NoMemory;
use cap_ops::{Key, Objects, Offer, PrimOut};
use std::alloc::Global;

/// What keeps the values of keys: a call asks for its key first, and puts what it has computed. When a board isn't final,
/// and when it is full, is said by the contract of its own kind: here both are free.
pub trait Board<C: Offer>: Objects<C::O> {
    /// What the board has besides its objects: the offer, the rules, its events, and the plan once it is known.
    ghost state: { Self → BoardState C C.O C.M };

    /// What holds of the board between its calls, of its kind's own choice.
    ghost holds: { Self → Type 0 };

    /// How a board goes on, of its kind's own choice: what each call ensures of the board before and after it.
    ghost onward: { Self → Self → Type 0 };

    /// The kept value of a key, or what its operation is to be done by.
    fn ask(&mut self, alloc: Global, key: &Key<C::M>) -> Result<Asked<C::M>, NoMemory>
        requires fits { Fits (over (prime_of (C.offered (state self.old).offer))) key.now.op.0 (arguments key.now.args) }
        requires known { Known (C.offered (state self.old).offer).category (Self.told self.old) (arguments key.now.args) }
        requires holds { holds self.old }
        ensures holds { holds self.new }
        ensures onward { onward self.old self.new }
        ensures asks { IfOk result (λ a. Asks (C.offered (state self.old).offer) (state self.old) (Self.told self.old) key.now.op.0 key.now.args a (state self.new) (Self.told self.new)) }
        ensures err { OnErr result ((state self.new ≡ state self.old) × (Self.told self.new ≡ Self.told self.old)) };

    /// Keeps the result of a key, unless one is kept already; the kept one is the answer.
    fn put(
        &mut self,
        alloc: Global,
        key: &Key<C::M>,
        out: PrimOut<C::O, C::M>,
    ) -> Result<PutAnswer<C::M>, NoMemory>
        requires fits { Fits (over (prime_of (C.offered (state self.old).offer))) key.now.op.0 (arguments key.now.args) }
        requires known { Known (C.offered (state self.old).offer).category (Self.told self.old) (arguments key.now.args) }
        requires may { MayPut (C.offered (state self.old).offer) (state self.old) (Self.told self.old) key.now.op.0 key.now.args out }
        requires holds { holds self.old }
        ensures holds { holds self.new }
        ensures onward { onward self.old self.new }
        ensures puts { IfOk result (λ a. Puts (C.offered (state self.old).offer) (state self.old) (Self.told self.old) key.now.op.0 key.now.args out a (state self.new) (Self.told self.new)) }
        ensures err { OnErr result ((state self.new ≡ state self.old) × (Self.told self.new ≡ Self.told self.old)) };

    /// A board that stays has gone on.
    ghost stays: { (b : Self) → onward b b };

    /// What goes on twice goes on.
    ghost goes_on: { (a b c : Self) → onward a b → onward b c → onward a c };

    ghost told_objects: { (b : Self) → holds b → ToldObjects (C.offered (state b).offer) (Self.told b) };
}
