// The lines of events that are no asks and no puts.
ghost use Rattle.std.specs.Prelude.{◌≡◌, ◌≤◌, IfOk, OnErr, IfSome};
ghost use Rattle.cap_ops.specs.Ends.{IsOperation};
ghost use Rattle.cap_seat.specs.Seats.{Holds, Waits};
ghost use Rattle.cap_session_lines.specs.Doing.{EventDoes, weight_of, HasWeights};

use cap_desk::Desk;
use cap_history::{Event, Reply};
use cap_names::{Name, NoMemory, OpId};
use cap_ops::{MOST_WEIGHT, Offer};
use cap_report::{LineAnswer, LineRefusal};
use cap_seat::{Seat, Tried};
use std::alloc::Global;

/// Registers a primitive with the written weight, or with its default, or with 1 where the kind doesn't offer it.
pub fn register_line<C: Offer, D: Desk<C> + Drop>(
    alloc: Global,
    seat: &mut Seat<C, D>,
    offer: &C,
    op: OpId,
    written: Option<u32>,
) -> Result<LineAnswer<C::M>, NoMemory>
    requires operation { IsOperation op.0 }
    requires offer { offer.now ≡ seat.old.offer }
    requires defaults { HasWeights (C.offered offer.now) }
    requires from { IfSome written (λ n. 1 ≤ n) }
    requires to { IfSome written (λ n. n ≤ MOST_WEIGHT) }
    requires holds { Holds (C.offered seat.old.offer) C.O.cells_of C.M.cells_of seat.old }
    ensures holds { Holds (C.offered seat.new.offer) C.O.cells_of C.M.cells_of seat.new }
    ensures does { IfOk result (λ line. EventDoes (C.offered seat.old.offer) C.O.cells_of C.M.cells_of D.others seat.old (Event.Register op (weight_of (C.offered seat.old.offer) op.0 written)) line seat.new) }
    ensures err { OnErr result (Waits D.others seat.old seat.new) }
{
    let weight = match written {
        Some(n) => n,
        None => offer.offers(op).unwrap_or(1),
    };
    match seat.register(alloc, op, weight)? {
        Tried::Replied(Reply::Done) => Ok(LineAnswer::Registered { op, weight }),
        Tried::Replied(Reply::AlreadyFinal { at }) => {
            Ok(LineAnswer::Refused(LineRefusal::AlreadyFinal { at }))
        }
        Tried::Replied(Reply::NotOffered) => {
            Ok(LineAnswer::Refused(LineRefusal::NotOffered { op }))
        }
        Tried::Replied(Reply::Twice { weight }) => {
            Ok(LineAnswer::Refused(LineRefusal::Twice { weight }))
        }
        Tried::Replied(_) => unreachable!(),
        Tried::Full { entries, cells } => {
            Ok(LineAnswer::Refused(LineRefusal::Full { entries, cells }))
        }
    }
}

/// Ends registering.
pub fn finalise_line<C: Offer, D: Desk<C> + Drop>(
    alloc: Global,
    seat: &mut Seat<C, D>,
) -> Result<LineAnswer<C::M>, NoMemory>
    requires { Holds (C.offered seat.old.offer) C.O.cells_of C.M.cells_of seat.old }
    ensures holds { Holds (C.offered seat.new.offer) C.O.cells_of C.M.cells_of seat.new }
    ensures does { IfOk result (λ line. EventDoes (C.offered seat.old.offer) C.O.cells_of C.M.cells_of D.others seat.old Event.Finalise line seat.new) }
    ensures err { OnErr result (Waits D.others seat.old seat.new) }
{
    match seat.finalise(alloc)? {
        Tried::Replied(Reply::Final(_)) => Ok(LineAnswer::Final),
        Tried::Replied(Reply::AlreadyFinal { at }) => {
            Ok(LineAnswer::Refused(LineRefusal::AlreadyFinal { at }))
        }
        Tried::Replied(_) => unreachable!(),
        Tried::Full { entries, cells } => {
            Ok(LineAnswer::Refused(LineRefusal::Full { entries, cells }))
        }
    }
}

/// Asks for the plan.
pub fn plan_line<C: Offer, D: Desk<C> + Drop>(
    alloc: Global,
    seat: &mut Seat<C, D>,
) -> Result<LineAnswer<C::M>, NoMemory>
    requires { Holds (C.offered seat.old.offer) C.O.cells_of C.M.cells_of seat.old }
    ensures holds { Holds (C.offered seat.new.offer) C.O.cells_of C.M.cells_of seat.new }
    ensures does { IfOk result (λ line. EventDoes (C.offered seat.old.offer) C.O.cells_of C.M.cells_of D.others seat.old Event.PlanOf line seat.new) }
    ensures err { OnErr result (Waits D.others seat.old seat.new) }
{
    match seat.plan(alloc)? {
        Tried::Replied(Reply::PlanIs(plan)) => Ok(LineAnswer::Plan(plan)),
        Tried::Replied(Reply::NotFinal) => Ok(LineAnswer::Refused(LineRefusal::NotFinal)),
        Tried::Replied(_) => unreachable!(),
        Tried::Full { entries, cells } => {
            Ok(LineAnswer::Refused(LineRefusal::Full { entries, cells }))
        }
    }
}

/// Gives an object of the category a name.
pub fn declare_line<C: Offer, D: Desk<C> + Drop>(
    alloc: Global,
    seat: &mut Seat<C, D>,
    name: Name,
    object: C::O,
) -> Result<LineAnswer<C::M>, NoMemory>
    requires is_object { (C.offered seat.old.offer).category.is_object object }
    requires holds { Holds (C.offered seat.old.offer) C.O.cells_of C.M.cells_of seat.old }
    ensures holds { Holds (C.offered seat.new.offer) C.O.cells_of C.M.cells_of seat.new }
    ensures does { IfOk result (λ line. EventDoes (C.offered seat.old.offer) C.O.cells_of C.M.cells_of D.others seat.old (Event.Declare name object) line seat.new) }
    ensures err { OnErr result (Waits D.others seat.old seat.new) }
{
    match seat.declare(alloc, name, object)? {
        Tried::Replied(Reply::Object(handle)) => Ok(LineAnswer::Object(handle)),
        Tried::Replied(Reply::NameTaken { handle, .. }) => {
            Ok(LineAnswer::Refused(LineRefusal::NameTaken { handle }))
        }
        Tried::Replied(_) => unreachable!(),
        Tried::Full { entries, cells } => {
            Ok(LineAnswer::Refused(LineRefusal::Full { entries, cells }))
        }
    }
}
