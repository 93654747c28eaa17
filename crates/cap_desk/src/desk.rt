// Where a session puts its events.
ghost use Rattle.std.specs.Prelude.{◌≡◌, IfOk, List};
ghost use Rattle.cap_rules.specs.Table.{rule_table};
ghost use Rattle.cap_legal.specs.Legal.{TrueEvent, Legal};
ghost use Rattle.cap_history.specs.declared.entries.Entry.{Entry};
ghost use Rattle.cap_history.specs.Replies.{entry};
ghost use Rattle.cap_desk.specs.Books.{frame};
ghost use Rattle.cap_desk.specs.Hands.{Hand, hand_behind};
ghost use Rattle.cap_desk.specs.Woven.{AreOthers};
ghost use Rattle.cap_desk.specs.Desks.{DeskSteps};
ghost use Rattle.cap_store.specs.State.{reply_of, GivesBack};

use cap_history::{Entry, Event, Reply};
use cap_names::SessionNo;
use cap_ops::Offer;
use cap_store::EnterRefusal;
use std::alloc::Global;

/// Where a session puts its events of one category.
pub trait Desk<C: Offer> {
    /// The offer in whose category it replies.
    ghost offer: { Self → C };

    /// The entries that it has seen: a front of the category's history.
    ghost seen: { Self → List (Entry C.O C.M) };

    /// Which state it stands before, and how many entries were added here.
    ghost hand: { Self → Hand };

    /// The entries of others that may stand between two of its own.
    ghost others: { List (Entry C.O C.M) → Type 0 };

    /// Makes an event, and answers the reply with a copy of its entry. Where the history is full the event comes back.
    fn enter(
        &mut self,
        alloc: Global,
        session: SessionNo,
        event: Event<C::O, C::M>,
    ) -> Result<(Reply<C::O, C::M>, Entry<C::O, C::M>), EnterRefusal<C::O, C::M>>
        requires is_true { TrueEvent (C.offered (offer self.old)) rule_table (seen self.old) event }
        requires legal { Legal (frame (C.offered (offer self.old)) C.O.cells_of C.M.cells_of) (seen self.old) }
        ensures legal { Legal (frame (C.offered (offer self.new)) C.O.cells_of C.M.cells_of) (seen self.new) }
        ensures same { offer self.new ≡ offer self.old }
        ensures steps { DeskSteps (C.offered (offer self.old)) C.O.cells_of C.M.cells_of others (seen self.old) session event (reply_of result) (seen self.new) }
        ensures hand { hand self.new ≡ hand_behind (hand self.old) (reply_of result) }
        ensures copy { IfOk result (λ x. x.1 ≡ entry session event x.0) }
        ensures back { GivesBack event result };

    /// Others may have put nothing, and what they put may come in parts.
    ghost are_others: { AreOthers others };
}
