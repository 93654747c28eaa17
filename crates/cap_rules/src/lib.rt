//! The 59 derivation rules as data.
#![tactic(auto)]

mod bodies;
mod codes;
mod cost_table;
mod rule_table;

pub use cost_table::costs;
pub use rule_table::rules;
