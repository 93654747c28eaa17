// Categories and values by their names.
ghost use Rattle.std.specs.Prelude.{◌≡◌, OnOk, OnErr, option_map};
ghost use Rattle.cap_accounts.specs.Commands.{category_of, answer_of, binds, is_there, is_made};
ghost use Rattle.cap_accounts.specs.Accounts.{with_bound};

use cap_names::{Name, NoMemory};
use cap_report::{Bound, LineAnswer, Made, Situation};

/// The category of this name, if one was made.
pub fn category_of<'a, X, T, M>(
    situation: &'a Situation<X, T, M>,
    name: Name,
) -> Option<&'a Made<X>>
    ensures { option_map (λ m. m.now) result ≡ category_of situation.now name }
{
    let made = situation.categories.as_slice();
    made.iter().find(|m| m.name == name)
}

/// What the command answered that bound this name, if one did.
pub fn answer_of<'a, X, T, M>(
    situation: &'a Situation<X, T, M>,
    name: Name,
) -> Option<&'a LineAnswer<M>>
    ensures { option_map (λ a. a.now) result ≡ answer_of situation.now name }
{
    let bound = situation.bound.as_slice();
    match bound.iter().find(|b| b.name == name) {
        Some(one) => Some(&one.answer),
        None => None,
    }
}

/// Whether a name can stand for this answer.
fn binds<M>(answer: &LineAnswer<M>) -> bool
    ensures { result ≡ binds answer.now }
{
    match answer {
        LineAnswer::Object(_) => true,
        LineAnswer::Morphism(_) => true,
        LineAnswer::Tuple(_) => true,
        LineAnswer::Truth(_) => true,
        _ => false,
    }
}

/// Whether there is a value of this name.
pub(crate) fn is_there<X, T, M>(situation: &Situation<X, T, M>, name: Name) -> bool
    ensures { result ≡ is_there situation.now (answer_of situation.now name) }
{
    match answer_of(situation, name) {
        Some(answer) => binds(answer),
        None => false,
    }
}

/// Whether there is a category of this name.
pub(crate) fn is_made<X, T, M>(situation: &Situation<X, T, M>, name: Name) -> bool
    ensures { result ≡ is_made situation.now (category_of situation.now name) }
{
    category_of(situation, name).is_some()
}

/// Binds a name to an answer. Without memory nothing is bound.
pub fn bind<X, T, M: Drop>(
    situation: &mut Situation<X, T, M>,
    name: Option<Name>,
    answer: LineAnswer<M>,
) -> Result<(), NoMemory>
    ensures ok { OnOk result (situation.new ≡ with_bound situation.old name answer) }
    ensures err { OnErr result (situation.new ≡ situation.old) }
{
    let Some(name) = name else {
        return Ok(());
    };
    situation.bound.push(Bound { name, answer })?;
    Ok(())
}
