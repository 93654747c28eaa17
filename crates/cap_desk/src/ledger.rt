// An offer with the state of its category.
ghost use Rattle.std.specs.Prelude.{◌≡◌, [], IfOk, map, option_map};
ghost use Rattle.std.specs.List.{range_with_len};
ghost use Rattle.cap_rules.specs.Table.{rule_table};
ghost use Rattle.cap_legal.specs.Legal.{TrueEvent, Legal};
ghost use Rattle.cap_history.specs.Reading.{finality};
ghost use Rattle.cap_history.specs.Replies.{entry};
ghost use Rattle.cap_store.specs.State.{Steps, reply_of, GivesBack};
ghost use Rattle.cap_desk.specs.Books.{Book, frame};
ghost use Rattle.cap_desk.specs.Desks.{log_of};

use cap_history::{Entry, Event, Reply};
use cap_names::{OpId, SessionNo};
use cap_ops::{Offer, Plan, Regs};
use cap_rules::costs;
use cap_store::{CatState, EnterRefusal};
use std::alloc::Global;
use std::marker::Model;

/// An offer with the state of its category, whose history is legal. Contracts see it as the offer and the history.
#[derive(Drop)]
pub struct Ledger<C: Offer> {
    offer: C,
    state: CatState<C::O, C::M>,
}

impl<C: Offer> Model for Ledger<C> {
    ghost use Rattle.cap_desk.specs.Books.{Book, IsLedger};

    ghost Value = { Book C C.O C.M };

    ghost view = { λ l. record { offer = l.offer; entries = l.state.entries } };

    ghost invariant = { λ l. IsLedger (C.offered l.offer) C.O.cells_of C.M.cells_of l.state };
}

/// The weights of what an offer offers, in order of number.
fn offered_by<C: Offer>(offer: &C) -> Regs
    ensures { result.weights ≡ map (C.offered offer.now).weight (range_with_len 1 44) }
{
    let mut weights = [None; 44];
    for op in 0..44 {
        weights[op] = offer.offers(OpId(op as u8 + 1));
    }
    Regs { weights }
}

impl<C: Offer> Ledger<C> {
    /// A category in which nothing has happened.
    pub fn new(alloc: Global, offer: C) -> Ledger<C>
        ensures { result ≡ record { offer = offer; entries = [] } }
    {
        let kind = offer.kind();
        let offered = offered_by(&offer);
        Ledger {
            offer,
            state: CatState::new(alloc, kind, offered, costs()),
        }
    }

    /// The entries, in order.
    pub fn history(&self) -> &[Entry<C::O, C::M>]
        ensures is { result.now ≡ self.now.entries }
        ensures legal { Legal (frame (C.offered self.now.offer) C.O.cells_of C.M.cells_of) self.now.entries }
    {
        self.state.history()
    }

    /// Its history is legal. The call does nothing.
    pub fn law_legal(&self)
        ensures { Legal (frame (C.offered self.now.offer) C.O.cells_of C.M.cells_of) self.now.entries }
    {
        let _entries = self.history();
    }

    /// The plan, once registering has ended.
    pub fn plan(&self) -> Option<Plan>
        ensures { result ≡ option_map (λ f. f.plan) (finality self.now.entries) }
    {
        self.state.plan()
    }

    /// Adds an event with its reply, and answers the reply with a copy of the entry. A refusal changes nothing, and where
    /// the history is full the event comes back.
    pub fn enter(
        &mut self,
        alloc: Global,
        session: SessionNo,
        event: Event<C::O, C::M>,
    ) -> Result<(Reply<C::O, C::M>, Entry<C::O, C::M>), EnterRefusal<C::O, C::M>>
        requires { TrueEvent (C.offered self.old.offer) rule_table self.old.entries event }
        ensures same { self.new.offer ≡ self.old.offer }
        ensures steps { Steps C.O.cells_of C.M.cells_of (log_of (C.offered self.old.offer) self.old.entries) session event (reply_of result) (log_of (C.offered self.old.offer) self.new.entries) }
        ensures legal { Legal (frame (C.offered self.new.offer) C.O.cells_of C.M.cells_of) self.new.entries }
        ensures copy { IfOk result (λ x. x.1 ≡ entry session event x.0) }
        ensures back { GivesBack event result }
    {
        self.state.enter(alloc, session, event)
    }
}

impl<C: Offer + Drop> Ledger<C> {
    /// The entries, in order, for good.
    pub fn into_history(self) -> Vec<Entry<C::O, C::M>>
        ensures is { result.items ≡ self.entries }
        ensures legal { Legal (frame (C.offered self.offer) C.O.cells_of C.M.cells_of) self.entries }
    {
        self.state.into_history()
    }
}
