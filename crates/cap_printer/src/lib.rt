//! The printer of scripts: the text of a tree, which parses again to an equal tree but for the places.
#![tactic(auto)]

mod printer;
mod texts;

pub use printer::print;
