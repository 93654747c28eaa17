//! Whole runs of scripts: the prelude, and then each session, with a report that accounts for the script.
#![tactic(auto)]

mod answers;
mod course;
mod gated;
mod jobs;
mod places;
mod plain;
mod prelude;
mod reports;
mod sessions;
mod shares;
#[cfg(test)]
mod tests;
mod threads;
mod turn_desk;

pub use cap_report::{Done, History, LineAnswer, LineRefusal, Report, Trace};
pub use gated::Gated;
pub use plain::run_plain;
pub use threads::run_sessions;
