//! The symbols of a script: the text of its tree, without blanks.
#![tactic(auto)]

mod blocks;
mod commands;
mod literals;
mod matrices;
mod script;
mod words;

pub use script::symbols_of;
