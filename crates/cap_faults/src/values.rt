// Values, and what a script has bound.
ghost use Rattle.std.specs.Prelude.{◌≡◌, ◌++◌, ◌∷◌, [], OnOk, nat_le, find, option_copied};
ghost use Rattle.std.specs.List.{list_any};
ghost use Rattle.cap_names.specs.declared.reasons.Reason.TheVariants.{Taken, Limit};
ghost use Rattle.cap_block_faults.specs.Marks.{told, ◌or_else◌};
ghost use Rattle.cap_faults.specs.Commands.{is_value, value_of, new_name, has_part, is_object, is_morphism, is_scalar};

use cap_block_faults::{Mark, told};
use cap_names::{Name, Reason};
use cap_ops::Sort;

/// A value that is bound: its name, the name of its category and its sort.
#[derive(Debug, Clone, Copy, PartialEq, Eq)]
pub struct Value {
    pub name: Name,
    pub cat: Name,
    pub sort: Sort,
}

fn is_value(value: &Value, name: Name) -> bool
    ensures { result ≡ is_value name value.now }
{
    value.name == name
}

/// The value of this name.
pub fn value_of(values: &[Value], name: Name) -> Option<Value>
    ensures { result ≡ value_of values.now name }
{
    values.iter().copied().find(|value| is_value(value, name))
}

fn is_bound(values: &[Value], name: Name) -> bool
    ensures { result ≡ list_any (is_value name) values.now }
{
    values.iter().any(|value| is_value(value, name))
}

/// The mark of a name to be bound, where so many are bound in this scope already.
pub fn new_name(own: usize, values: &[Value], name: Name) -> Mark
    ensures { result ≡ new_name own values.now name }
{
    if 512 <= own {
        Some(Reason::Limit)
    } else {
        told(is_bound(values, name), Reason::Taken)
    }
}

pub fn is_object(sort: Sort) -> bool
    ensures { result ≡ is_object sort }
{
    matches!(sort, Sort::Obj)
}

pub fn is_morphism(sort: Sort) -> bool
    ensures { result ≡ is_morphism sort }
{
    matches!(sort, Sort::Mor)
}

pub fn is_scalar(sort: Option<Sort>) -> bool
    ensures { result ≡ is_scalar sort }
{
    matches!(sort, Some(Sort::Num))
}

pub fn has_part(sort: Sort, part: u64) -> bool
    ensures { result ≡ has_part sort part }
{
    match sort {
        Sort::Tuple(parts) => 1 <= part && part <= u64::from(parts),
        _ => false,
    }
}
