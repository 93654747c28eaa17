//! A script has one report: what its sessions do one after another is determined by it.
#![tactic(auto)]

mod laws;

pub use laws::{law_one_report, law_one_run, law_one_whole_report, law_runs_are_in_turn};
