//! Quivers with relations, and the multiplication tables of their quotients.
#![tactic(auto)]

mod basis;
mod classes;
mod faults;
mod limits;
mod path_table;
mod quiver;
mod quotients;

pub use cap_quiver_paths::Relation;
pub use faults::{BadQuiver, QuiverFault};
pub use path_table::PathTable;
pub use quiver::Quiver;
