//! Plain evaluation: the value of an operation on data by a plan, without cache, handles or history.
#![tactic(auto)]

mod laws;

pub use laws::{law_plans_are_true, law_run_is_one};
