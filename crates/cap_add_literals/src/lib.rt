//! Literals of the objects and morphisms of additive closures, read as data.
#![tactic(auto)]

mod combinations;
mod laws;
mod lists;

pub use combinations::read_entries;
pub use laws::law_list_literals_are_one;
pub use lists::read_list;
