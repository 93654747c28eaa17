//! Scripts with numbers in place of names.
#![tactic(auto)]

mod literals;
mod numbers;
mod objects;
mod scripts;
mod tree;

pub use scripts::checked;
pub use tree::{Checked, CheckedObj};
