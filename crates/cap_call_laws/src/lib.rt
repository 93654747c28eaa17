//! Laws of the values that calls answer over any board.
#![tactic(auto)]

mod laws;

pub use laws::{law_rules_can_run, law_values_mean};
