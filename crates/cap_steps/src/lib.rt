//! The values of a body's variables, and the steps that call nothing.
#![tactic(auto)]

mod slots;
mod steps;

pub use slots::{Slot, out_of_slot, slot_of_value};
pub use steps::{any_nothing, arguments_at, copy_at, parameters, plain_step};
