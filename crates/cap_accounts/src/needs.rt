// What a command lacks.
ghost use Rattle.std.specs.Prelude.{◌≡◌, if◌then◌else◌, None, Some, find, not, option_map};
ghost use Rattle.cap_accounts.specs.Commands.{lacking, argument_needs, category_of, answer_of, is_made, is_there};

use crate::lookups::{is_made, is_there};
use cap_checked::CheckedObj;
use cap_grammar::{ArgTok, Command};
use cap_names::{MorLit, Name};
use cap_report::Situation;

/// This name, where no category has it.
fn lacks_category<X, T, M>(situation: &Situation<X, T, M>, name: Name) -> Option<Name>
    ensures { result ≡ (if is_made situation.now (category_of situation.now name) then None else Some name) }
{
    if is_made(situation, name) {
        None
    } else {
        Some(name)
    }
}

/// This name, where no value has it.
fn lacks_value<X, T, M>(situation: &Situation<X, T, M>, name: Name) -> Option<Name>
    ensures { result ≡ (if is_there situation.now (answer_of situation.now name) then None else Some name) }
{
    if is_there(situation, name) {
        None
    } else {
        Some(name)
    }
}

#[tactic(auto, using(crate::proofs::ArgumentNeeds::needs_int, crate::proofs::ArgumentNeeds::needs_ref, crate::proofs::ArgumentNeeds::needs_end))]
/// The first name among arguments that no value has.
fn lacks_argument<X, T, M>(situation: &Situation<X, T, M>, args: &[ArgTok]) -> Option<Name>
    ensures { result ≡ option_map (λ need. need.0) (find (λ need. not need.1) (argument_needs situation.now args.now)) }
{
    'args: for arg in args {
        if let ArgTok::Ref(of) = arg {
            if !is_there(situation, of.name) {
                return Some(of.name);
            }
        }
    }
    None
}

/// The first name that a command needs and that isn't there, in the order of its text.
pub fn lacking<X, T, M>(
    situation: &Situation<X, T, M>,
    command: &Command<CheckedObj, MorLit>,
) -> Option<Name>
    ensures { result ≡ lacking situation.now command.now }
{
    match command {
        Command::Register { cat, .. } => lacks_category(situation, *cat),
        Command::Finalise { cat } => lacks_category(situation, *cat),
        Command::Plan { cat } => lacks_category(situation, *cat),
        Command::Object { cat, .. } => lacks_category(situation, *cat),
        Command::Src { of, .. } => lacks_value(situation, of.name),
        Command::Tgt { of, .. } => lacks_value(situation, of.name),
        Command::Let { cat, src, tgt, .. } => {
            if !is_made(situation, *cat) {
                return Some(*cat);
            }
            if !is_there(situation, src.name) {
                return Some(src.name);
            }
            lacks_value(situation, tgt.name)
        }
        Command::Call { cat, args, .. } => {
            if !is_made(situation, *cat) {
                return Some(*cat);
            }
            lacks_argument(situation, args.as_slice())
        }
    }
}
