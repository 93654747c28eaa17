//! The state of a category, seen as its history.
#![tactic(auto)]

mod adding;
mod lookups;
mod parts;
mod refusals;
mod replying;
mod state;
mod telling;

pub use refusals::{EnterRefusal, StepRefusal};
pub use state::CatState;
