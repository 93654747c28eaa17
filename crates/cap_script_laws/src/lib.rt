//! What is said of a text as a script is determined by the text.
#![tactic(auto)]

mod laws;

pub use laws::{law_one_fault, law_one_script, law_script_or_cause, law_script_or_fault};
