//! The symbols of a text, each with its place.
#![tactic(auto)]

mod kinds;
mod laws;
mod marks;
mod words;

pub use laws::law_one_symbol_list;
pub use marks::symbols;
pub use words::fixed_text;
