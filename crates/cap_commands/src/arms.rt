// The parts of a command that work at the seat of its category.
ghost use Rattle.std.specs.Prelude.{◌≡◌, IfOk, IsSome};
ghost use Rattle.cap_ops.specs.Ends.{IsOperation};
ghost use Rattle.cap_rules.specs.Table.{rule_table};
ghost use Rattle.cap_board.specs.Board.{ToldObjects};
ghost use Rattle.cap_data.specs.Counts.{cells_in_object, cells_in_morphism};
ghost use Rattle.cap_offer.specs.Labels.{any_offer};
ghost use Rattle.cap_offer.specs.Literals.{HasMorphismForm};
ghost use Rattle.cap_seat.specs.Seats.{Holds, told_at};
ghost use Rattle.cap_commands.specs.Kinds.{HasForm};
ghost use Rattle.cap_commands.specs.Doing.{ObjectDoes, MorphismDoes, AreCallable, CallGives};

use crate::literals::{read_morphism, read_object};
use cap_accounts::arguments;
use cap_checked::CheckedObj;
use cap_data::MorData;
use cap_desk::Desk;
use cap_eval::call;
use cap_grammar::ArgTok;
use cap_names::{Handle, MorLit, Name, NoMemory, OpId};
use cap_offer::AnyCat;
use cap_ops::{Arrow, Objects, Offer};
use cap_report::{LineAnswer, Situation};
use cap_seat::Seat;
use cap_session_lines::{declare_line, end_line};
use cap_terms::RuleSet;
use std::alloc::Global;

/// Declares the object of a literal, or answers why it is refused.
pub(crate) fn run_object<D: Desk<AnyCat> + Drop>(
    alloc: Global,
    seat: &mut Seat<AnyCat, D>,
    category: &AnyCat,
    name: Name,
    literal: &CheckedObj,
) -> Result<LineAnswer<MorData>, NoMemory>
    requires form { HasForm category.now literal.now }
    requires offer { category.now ≡ seat.old.offer }
    requires holds { Holds (any_offer seat.old.offer) cells_in_object cells_in_morphism seat.old }
    ensures holds { Holds (any_offer seat.new.offer) cells_in_object cells_in_morphism seat.new }
    ensures does { IfOk result (λ answer. ObjectDoes D.others category.now name literal.now seat.old answer seat.new) }
{
    match read_object(alloc, category, literal)? {
        Ok(object) => declare_line(alloc, seat, name, object),
        Err(why) => Ok(LineAnswer::Refused(why)),
    }
}

/// Reads the morphism of a literal between two objects that were told, or answers why it is refused.
pub(crate) fn run_let<D: Desk<AnyCat> + Drop>(
    alloc: Global,
    seat: &Seat<AnyCat, D>,
    category: &AnyCat,
    src: Handle,
    tgt: Handle,
    literal: &MorLit,
) -> Result<LineAnswer<MorData>, NoMemory>
    requires source { IsSome (told_at seat.now src) }
    requires target { IsSome (told_at seat.now tgt) }
    requires objects { ToldObjects (any_offer category.now) (told_at seat.now) }
    requires form { HasMorphismForm category.now literal.now }
    ensures { IfOk result (λ answer. MorphismDoes category.now (told_at seat.now) src tgt literal.now answer) }
{
    let a = seat.object(src);
    let b = seat.object(tgt);
    match read_morphism(alloc, category, a, b, literal)? {
        Ok(value) => Ok(LineAnswer::Morphism(Arrow { src, tgt, value })),
        Err(why) => Ok(LineAnswer::Refused(why)),
    }
}

#[tactic(auto, using(crate::proofs::CallArms::call_gives, crate::proofs::CallArms::is_ready))]
/// Calls an operation on the arguments that the tokens stand for.
pub(crate) fn run_call<D: Desk<AnyCat> + Drop>(
    alloc: Global,
    rules: &RuleSet,
    standing: &Situation<AnyCat, (), MorData>,
    seat: &mut Seat<AnyCat, D>,
    category: &AnyCat,
    op: OpId,
    tokens: &[ArgTok],
) -> Result<LineAnswer<MorData>, NoMemory>
    requires rules { rules.now ≡ rule_table }
    requires callable { AreCallable standing.now category.now (told_at seat.old) op.0 tokens.now }
    requires offer { category.now ≡ seat.old.offer }
    requires holds { Holds (any_offer seat.old.offer) cells_in_object cells_in_morphism seat.old }
    ensures holds { Holds (any_offer seat.new.offer) cells_in_object cells_in_morphism seat.new }
    ensures gives { IfOk result (λ answer. CallGives D.others standing.now category.now op tokens.now seat.old answer seat.new) }
{
    let args = arguments(alloc, standing, category.field(), tokens)?;
    let end = call(alloc, seat, category, rules, op, args.as_slice());
    end_line(end)
}
