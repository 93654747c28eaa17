//! The lines of a text, without its empty lines, and nodes with their places.
#![tactic(auto)]

mod lines;
mod nodes;

pub use lines::{position, whole_lines};
pub use nodes::place_node;
