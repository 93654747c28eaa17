//! The top call: what the program does with its words, its input and its output.
#![tactic(auto)]

mod check;
mod judging;
mod outcome;
mod plain;
mod plan;
mod program;
mod refusals;
mod run;
mod running;

pub use check::cap_check;
pub use judging::{Said, Verdict};
pub use outcome::{Outcome, Status, no_report};
pub use plain::cap_plain;
pub use plan::cap_plan;
pub use program::cap;
pub use run::text;

#[cfg(test)]
mod tests;
