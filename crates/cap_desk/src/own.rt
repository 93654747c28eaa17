// A category's state of one's own.
ghost use Rattle.std.specs.Prelude.{◌≡◌, [], ◌++◌, IfOk, length};
ghost use Rattle.std.proofs.Common.{refl, ap, ◌∙◌};
ghost use Rattle.cap_rules.specs.Table.{rule_table};
ghost use Rattle.cap_legal.specs.Legal.{TrueEvent, Legal};
ghost use Rattle.cap_history.specs.Replies.{entry};
ghost use Rattle.cap_store.specs.State.{reply_of, GivesBack};
ghost use Rattle.cap_desk.specs.Books.{frame};
ghost use Rattle.cap_desk.specs.Hands.{hand_behind};
ghost use Rattle.cap_desk.specs.Desks.{DeskSteps};
ghost use Rattle.cap_desk.specs.Woven.{IsNothing};

use crate::desk::Desk;
use crate::ledger::Ledger;
use cap_history::{Entry, Event, Reply};
use cap_names::SessionNo;
use cap_ops::Offer;
use cap_store::EnterRefusal;
use std::alloc::Global;

/// A desk before a state that nobody else has: nothing stands between two entries.
#[derive(Drop)]
pub struct OwnDesk<C: Offer> {
    ledger: Ledger<C>,
}

impl<C: Offer> OwnDesk<C> {
    /// A desk before this state.
    pub fn new(ledger: Ledger<C>) -> OwnDesk<C>
        ensures { result.ledger ≡ ledger }
    {
        OwnDesk { ledger }
    }

    /// The state.
    pub fn into_ledger(self) -> Ledger<C>
        ensures { result ≡ self.ledger }
    {
        self.ledger
    }
}

impl<C: Offer> Desk<C> for OwnDesk<C> {
    ghost offer = { λ d. d.ledger.offer };

    ghost seen = { λ d. d.ledger.entries };

    ghost hand = { λ d. record { place = []; added = length d.ledger.entries } };

    ghost others = { IsNothing };

    fn enter(
        &mut self,
        alloc: Global,
        session: SessionNo,
        event: Event<C::O, C::M>,
    ) -> Result<(Reply<C::O, C::M>, Entry<C::O, C::M>), EnterRefusal<C::O, C::M>>
        requires is_true { TrueEvent (C.offered self.old.ledger.offer) rule_table self.old.ledger.entries event }
        requires legal { Legal (frame (C.offered self.old.ledger.offer) C.O.cells_of C.M.cells_of) self.old.ledger.entries }
        ensures legal { Legal (frame (C.offered self.new.ledger.offer) C.O.cells_of C.M.cells_of) self.new.ledger.entries }
        ensures same { self.new.ledger.offer ≡ self.old.ledger.offer }
        ensures steps { DeskSteps (C.offered self.old.ledger.offer) C.O.cells_of C.M.cells_of IsNothing self.old.ledger.entries session event (reply_of result) self.new.ledger.entries }
        ensures hand { record { place = []; added = length self.new.ledger.entries } ≡ hand_behind (record { place = []; added = length self.old.ledger.entries }) (reply_of result) }
        ensures copy { IfOk result (λ x. x.1 ≡ entry session event x.0) }
        ensures back { GivesBack event result }
    {
        self.ledger.enter(alloc, session, event)
    }

    ghost are_others = { record { nothing = refl; joined = λ a b p q. ap (λ x. x ++ b) p ∙ q } };
}
