//! The faults of a script: names, sorts and limits.
#![tactic(auto)]

mod arguments;
mod blocks;
mod commands;
mod fault;
mod parts;
mod scripts;
mod values;

pub use fault::CheckFault;
pub use scripts::faultless;
pub use values::Value;
