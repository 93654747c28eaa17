//! Reading a script from the symbols of its text.
#![tactic(auto)]

mod blocks;
mod commands;
mod lets;
mod nodes;
mod parts;
mod scripts;
mod text;

pub use lets::{Bound, Value};
pub use text::{ScriptFault, read_script};
