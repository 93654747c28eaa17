// Literals, and why they are refused.
ghost use Rattle.std.specs.Prelude.{◌≡◌, IfOk};
ghost use Rattle.cap_primitives.specs.Given.{from_to};
ghost use Rattle.cap_ops.specs.Told.{IsArrow};
ghost use Rattle.cap_offer.specs.Labels.{any_offer};
ghost use Rattle.cap_offer.specs.Literals.{HasMorphismForm};
ghost use Rattle.cap_commands.specs.Kinds.{ObjectIs, MorphismIs, HasForm};

use cap_checked::CheckedObj;
use cap_data::{MorData, ObjData};
use cap_names::{MorLit, NoMemory};
use cap_offer::{AnyCat, LitFault};
use cap_report::LineRefusal;
use std::alloc::Global;

/// The object that a literal stands for, or why it is refused.
pub fn read_object(
    alloc: Global,
    category: &AnyCat,
    literal: &CheckedObj,
) -> Result<Result<ObjData, LineRefusal>, NoMemory>
    requires { HasForm category.now literal.now }
    ensures is { IfOk result (λ r. ObjectIs category.now literal.now r) }
    ensures object { IfOk result (λ r. IfOk r (λ x. (any_offer category.now).category.is_object x)) }
{
    let CheckedObj::Lit(literal) = literal else {
        unreachable!()
    };
    match category.object(alloc, literal) {
        Ok(object) => Ok(Ok(object)),
        Err(LitFault::Shape { part }) => Ok(Err(LineRefusal::Shape { part })),
        Err(LitFault::TooLarge(size)) => Ok(Err(LineRefusal::TooLarge(size))),
        Err(LitFault::NoMemory) => Err(NoMemory),
        Err(_) => unreachable!(),
    }
}

/// The morphism from a to b that a literal stands for, or why it is refused.
pub fn read_morphism(
    alloc: Global,
    category: &AnyCat,
    a: &ObjData,
    b: &ObjData,
    literal: &MorLit,
) -> Result<Result<MorData, LineRefusal>, NoMemory>
    requires source { (any_offer category.now).category.is_object a.now }
    requires target { (any_offer category.now).category.is_object b.now }
    requires form { HasMorphismForm category.now literal.now }
    ensures is { IfOk result (λ r. MorphismIs category.now a.now b.now literal.now r) }
    ensures arrow { IfOk result (λ r. IfOk r (λ m. IsArrow (any_offer category.now).category (from_to a.now b.now m))) }
{
    match category.morphism(alloc, a, b, literal) {
        Ok(morphism) => Ok(Ok(morphism)),
        Err(LitFault::Shape { part }) => Ok(Err(LineRefusal::Shape { part })),
        Err(LitFault::TooLarge(size)) => Ok(Err(LineRefusal::TooLarge(size))),
        Err(LitFault::NoMemory) => Err(NoMemory),
        Err(_) => unreachable!(),
    }
}
