//! Bodies of derivation rules: lists of steps, their typing, and how often they call an operation.
#![tactic(auto)]

mod binding;
mod body;
mod check;
mod known;
mod laws;
mod occurrences;
mod rule_set;
mod shapes;
mod symbol;

pub use body::{Body, Rule, Step, Var};
pub use check::{BadStep, check_term};
pub use laws::law_typed_bodies_fit;
pub use occurrences::multiplicity;
pub use rule_set::RuleSet;
