// A desk behind a gate.
ghost use Rattle.std.specs.Prelude.{◌≡◌, IfOk};
ghost use Rattle.cap_rules.specs.Table.{rule_table};
ghost use Rattle.cap_legal.specs.Legal.{TrueEvent, Legal};
ghost use Rattle.cap_history.specs.Replies.{entry};
ghost use Rattle.cap_store.specs.State.{reply_of, GivesBack};
ghost use Rattle.cap_desk.specs.Books.{frame};
ghost use Rattle.cap_desk.specs.Hands.{hand_behind};
ghost use Rattle.cap_desk.specs.Desks.{DeskSteps};

use cap_desk::Desk;
use cap_history::{Entry, Event, Reply};
use cap_io::{Gate, GatePlace};
use cap_names::{CatNo, SessionNo};
use cap_ops::Offer;
use cap_store::EnterRefusal;
use std::alloc::Global;

/// A desk behind a gate: the session passes it just before each event of the category, and behind each miss.
#[derive(Drop)]
pub struct Gated<'g, D, G> {
    desk: D,
    gate: &'g G,
    category: CatNo,
}

impl<'g, D, G: Gate> Gated<'g, D, G> {
    /// This desk of the category with this number, behind this gate.
    pub fn new(desk: D, gate: &'g G, category: CatNo) -> Gated<'g, D, G>
        ensures { result.desk ≡ desk }
    {
        Gated {
            desk,
            gate,
            category,
        }
    }

    /// The desk.
    pub fn into_desk(self) -> D
        ensures { result ≡ self.entry.desk }
    {
        self.desk
    }
}

impl<'g, C: Offer, D: Desk<C>, G: Gate> Desk<C> for Gated<'g, D, G> {
    ghost offer = { λ g. D.offer g.desk };

    ghost seen = { λ g. D.seen g.desk };

    ghost hand = { λ g. D.hand g.desk };

    ghost others = { D.others };

    fn enter(
        &mut self,
        alloc: Global,
        session: SessionNo,
        event: Event<C::O, C::M>,
    ) -> Result<(Reply<C::O, C::M>, Entry<C::O, C::M>), EnterRefusal<C::O, C::M>>
        requires is_true { TrueEvent (C.offered (D.offer self.old.desk)) rule_table (D.seen self.old.desk) event }
        requires legal { Legal (frame (C.offered (D.offer self.old.desk)) C.O.cells_of C.M.cells_of) (D.seen self.old.desk) }
        ensures legal { Legal (frame (C.offered (D.offer self.new.desk)) C.O.cells_of C.M.cells_of) (D.seen self.new.desk) }
        ensures same { D.offer self.new.desk ≡ D.offer self.old.desk }
        ensures steps { DeskSteps (C.offered (D.offer self.old.desk)) C.O.cells_of C.M.cells_of D.others (D.seen self.old.desk) session event (reply_of result) (D.seen self.new.desk) }
        ensures hand { D.hand self.new.desk ≡ hand_behind (D.hand self.old.desk) (reply_of result) }
        ensures copy { IfOk result (λ x. x.1 ≡ entry session event x.0) }
        ensures back { GivesBack event result }
    {
        self.gate.pass(session.0, GatePlace::Held(self.category.0));
        let entered = self.desk.enter(alloc, session, event);
        if let Ok((Reply::Miss(_), _)) = &entered {
            self.gate
                .pass(session.0, GatePlace::Missed(self.category.0));
        }
        entered
    }

    ghost are_others = { D.are_others };
}
