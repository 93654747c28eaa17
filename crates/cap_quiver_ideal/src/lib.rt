//! The ideal of a quiver's relations: rows that span it, and the coordinates of paths modulo it.
#![tactic(auto)]

mod nulls;
mod products;
mod reducing;
mod spanning;

pub use nulls::coordinates;
pub use spanning::spanning_rows;
