// What the parts of a prelude say of registrations.
ghost use Rattle.std.specs.Prelude.{◌≡◌, IfSome, position};
ghost use Rattle.cap_sound.specs.Weights.{written_weight};
ghost use Rattle.cap_registered.specs.Registrations.{finalises, before_final, registration, kind_of};

use cap_check::CheckedObj;
use cap_grammar::{Command, Item, Over, Placed};
use cap_names::{MorLit, Name, OpId};
use cap_ops::Kind;

/// The kind of what a category is over.
pub fn kind_of(over: Over) -> Kind
    ensures { result ≡ kind_of over }
{
    match over {
        Over::Vec(_) => Kind::Mat,
        Over::Add(_) => Kind::Add,
        Over::Freyd(_) => Kind::Freyd,
        Over::Rep(_) => Kind::Rep,
    }
}

/// Whether a part makes the category of this name final.
fn finalises(part: &Placed<Item<CheckedObj, MorLit>>, name: Name) -> bool
    ensures { result ≡ finalises name part.now.node }
{
    match &part.node {
        Item::Command(Command::Finalise { cat }) => *cat == name,
        _ => false,
    }
}

/// The place of the first part that makes the category of this name final.
fn final_place(parts: &[Placed<Item<CheckedObj, MorLit>>], name: Name) -> Option<usize>
    ensures { result ≡ position (λ p. finalises name p.node) parts.now }
{
    parts.iter().position(|part| finalises(part, name))
}

/// The parts before the category of this name is final: all of them where it never is.
pub(crate) fn before_final(
    parts: &[Placed<Item<CheckedObj, MorLit>>],
    name: Name,
) -> &[Placed<Item<CheckedObj, MorLit>>]
    ensures { result.now ≡ before_final name parts.now }
{
    match final_place(parts, name) {
        Some(place) => &parts[..place],
        None => parts,
    }
}

/// What a part asks to register in the category of this name: the operation, with its weight where one is written.
pub(crate) fn registration(
    part: &Placed<Item<CheckedObj, MorLit>>,
    name: Name,
) -> Option<(OpId, Option<u64>)>
    ensures value { result ≡ registration name part.now.node }
    ensures written { IfSome result (λ ask. ask.1 ≡ written_weight part.now.node) }
{
    match &part.node {
        Item::Command(Command::Register { cat, op, weight }) if *cat == name => {
            Some((*op, *weight))
        }
        _ => None,
    }
}
