//! The 44 operations: kinds of category, sorts and ends, registrations, costs of rules, plans; values, keys and the trait of what offers primitives.
#![tactic(auto)]

mod arrows;
mod derivations;
mod ends;
mod fitting;
mod keys;
mod laws;
mod numbers;
mod offers;
pub mod operations;
mod plans;
mod primitives;
mod signatures;
mod sorts;

pub use arrows::{Arrow, End, OutArrow};
pub use derivations::{
    law_bounds_of_plan, law_lines_of_plan, law_lines_suffice, law_lower_bounds, law_one_least,
    law_one_plan,
};
pub use ends::{Ends, OperationEnds, Shape, arity, operation_ends};
pub use fitting::{Mismatch, ends_fit};
pub use keys::{Arg, Key, Out, PrimOut, Value};
pub use laws::{law_names_each_once, law_new_objects};
pub use numbers::{law_numbers, law_operations_are_numbered};
pub use offers::{kind_word, offered};
pub use plans::{Choice, Kind, MOST_WEIGHT, NO_PLAN, OPERATIONS, Plan, Regs, RuleCost, choice_of};
pub use primitives::{Datum, Objects, Offer};
pub use signatures::signature;
pub use sorts::{Signature, Sort};
