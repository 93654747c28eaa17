//! The commands of a script over the categories that are built.
#![tactic(auto)]

mod arms;
mod at_seat;
mod collecting;
mod commands;
mod literals;

pub use commands::run_command;
pub use literals::{read_morphism, read_object};
