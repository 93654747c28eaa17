// An event that is tried at a desk.
ghost use Rattle.std.specs.Prelude.{◌≡◌, ◌∷◌, [], ◌++◌, ◌<◌, vec_len, vec_capacity, IfOk, OnErr};
ghost use Rattle.cap_rules.specs.Table.{rule_table};
ghost use Rattle.cap_legal.specs.Legal.{TrueEvent, Legal};
ghost use Rattle.cap_desk.specs.Books.{frame};
ghost use Rattle.cap_desk.specs.Hands.{hand_behind};
ghost use Rattle.cap_desk.specs.Desks.{DeskSteps};
ghost use Rattle.cap_seat.specs.Events.{try_of, step_of};
ghost use Rattle.cap_seat.specs.Seats.{SeesOthers};

use crate::tries::{Tried, Try};
use cap_desk::Desk;
use cap_history::Event;
use cap_names::{NoMemory, SessionNo};
use cap_ops::Offer;
use cap_store::EnterRefusal;
use std::alloc::Global;

/// Puts an element behind the others, where room was reserved.
pub(crate) fn push_reserved<T: Drop>(items: &mut Vec<T>, item: T)
    requires { vec_len items.old < vec_capacity items.old }
    ensures { items.new.items ≡ items.old.items ++ item ∷ [] }
{
    match items.push(item) {
        Ok(()) => {}
        Err(_) => unreachable!(),
    }
}

/// Enters an event, and adds it to what was tried.
pub(crate) fn enter_try<C: Offer, D: Desk<C>>(
    alloc: Global,
    desk: &mut D,
    session: SessionNo,
    tries: &mut Vec<Try<C::O, C::M>>,
    event: Event<C::O, C::M>,
) -> Result<Tried<C::O, C::M>, NoMemory>
    requires is_true { TrueEvent (C.offered (D.offer desk.old)) rule_table (D.seen desk.old) event }
    requires legal { Legal (frame (C.offered (D.offer desk.old)) C.O.cells_of C.M.cells_of) (D.seen desk.old) }
    ensures legal { Legal (frame (C.offered (D.offer desk.new)) C.O.cells_of C.M.cells_of) (D.seen desk.new) }
    ensures same { D.offer desk.new ≡ D.offer desk.old }
    ensures steps { IfOk result (λ a. DeskSteps (C.offered (D.offer desk.old)) C.O.cells_of C.M.cells_of D.others (D.seen desk.old) session event (step_of a) (D.seen desk.new)) }
    ensures hand { IfOk result (λ a. D.hand desk.new ≡ hand_behind (D.hand desk.old) (step_of a)) }
    ensures tries { IfOk result (λ a. tries.new.items ≡ tries.old.items ++ try_of session event a ∷ []) }
    ensures err { OnErr result (SeesOthers D.others (D.seen desk.old) (D.seen desk.new) × (D.hand desk.new ≡ D.hand desk.old) × (tries.new.items ≡ tries.old.items)) }
{
    tries.reserve(1)?;
    match desk.enter(alloc, session, event) {
        Ok(entered) => {
            let (reply, entry) = entered;
            push_reserved(tries, Try::Entered(entry));
            Ok(Tried::Replied(reply))
        }
        Err(
            EnterRefusal::Full {
                event,
                entries,
                cells,
            },
        ) => {
            push_reserved(
                tries,
                Try::Full {
                    event,
                    entries,
                    cells,
                },
            );
            Ok(Tried::Full { entries, cells })
        }
        Err(EnterRefusal::NoMemory) => Err(NoMemory),
    }
}
