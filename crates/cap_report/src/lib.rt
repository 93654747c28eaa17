//! What a run of a script reports: the histories of its categories, what each session did, and what each command answered.
#![tactic(auto)]

mod lines;
mod report;
mod situation;

pub use lines::{LineAnswer, LineRefusal};
pub use report::{Done, History, Report, Trace};
pub use situation::{Bound, Made, Situation};
