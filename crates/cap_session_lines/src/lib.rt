//! What sessions do: one command over a seat.
#![tactic(auto)]

mod calls;
mod events;

pub use calls::{call_line, end_line};
pub use events::{declare_line, finalise_line, plan_line, register_line};
