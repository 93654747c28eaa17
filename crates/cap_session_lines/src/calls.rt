// The lines of calls.
ghost use Rattle.std.specs.Prelude.{◌≡◌, Some, Err, IfOk, MatchResult};
ghost use Rattle.cap_ops.specs.Arrows.{arguments};
ghost use Rattle.cap_ops.specs.Mismatches.{HaveSorts};
ghost use Rattle.cap_ops.specs.Told.{Known};
ghost use Rattle.cap_rules.specs.Table.{rule_table};
ghost use Rattle.cap_board.specs.declared.refusals.CallRefusal.TheVariants.{NoMemory as no_memory};
ghost use Rattle.cap_accounts.specs.Commands.{end_line};
ghost use Rattle.cap_seat.specs.Seats.{told_at, Holds};
ghost use Rattle.cap_session_lines.specs.Doing.{CallDoes};

use cap_desk::Desk;
use cap_eval::{CallRefusal, call};
use cap_names::{NoMemory, OpId};
use cap_ops::{Arg, Offer, Value};
use cap_report::{LineAnswer, LineRefusal};
use cap_seat::Seat;
use cap_terms::RuleSet;
use std::alloc::Global;

/// The line of a call's end; want of memory has none.
pub fn end_line<M>(end: Result<Value<M>, CallRefusal>) -> Result<LineAnswer<M>, NoMemory>
    ensures { MatchResult result (λ line. end_line end ≡ Some line) (λ _. end ≡ Err no_memory) }
{
    match end {
        Ok(Value::One(f)) => Ok(LineAnswer::Morphism(f)),
        Ok(Value::Many(fs)) => Ok(LineAnswer::Tuple(fs)),
        Ok(Value::Truth(b)) => Ok(LineAnswer::Truth(b)),
        Ok(Value::Nothing) => Ok(LineAnswer::Nothing),
        Err(CallRefusal::Mismatch(m)) => Ok(LineAnswer::Refused(LineRefusal::Mismatch(m))),
        Err(CallRefusal::NotFinal) => Ok(LineAnswer::Refused(LineRefusal::NotFinal)),
        Err(CallRefusal::Missing { op }) => Ok(LineAnswer::Refused(LineRefusal::Missing { op })),
        Err(CallRefusal::TooLarge(size)) => Ok(LineAnswer::Refused(LineRefusal::TooLarge(size))),
        Err(CallRefusal::Full { entries, cells }) => {
            Ok(LineAnswer::Refused(LineRefusal::Full { entries, cells }))
        }
        Err(CallRefusal::NoMemory) => Err(NoMemory),
    }
}

/// Calls an operation, and answers the line of its end.
pub fn call_line<C: Offer, D: Desk<C> + Drop>(
    alloc: Global,
    seat: &mut Seat<C, D>,
    offer: &C,
    rules: &RuleSet,
    op: OpId,
    args: &[Arg<C::M>],
) -> Result<LineAnswer<C::M>, NoMemory>
    requires sorts { HaveSorts op.0 args.now }
    requires offer { offer.now ≡ seat.old.offer }
    requires rules { rules.now ≡ rule_table }
    requires known { Known (C.offered offer.now).category (told_at seat.old) (arguments args.now) }
    requires holds { Holds (C.offered seat.old.offer) C.O.cells_of C.M.cells_of seat.old }
    ensures holds { Holds (C.offered seat.new.offer) C.O.cells_of C.M.cells_of seat.new }
    ensures does { IfOk result (λ line. CallDoes (C.offered seat.old.offer) C.O.cells_of C.M.cells_of D.others seat.old op.0 args.now line seat.new) }
{
    let end = call(alloc, seat, offer, rules, op, args);
    end_line(end)
}
