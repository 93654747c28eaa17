//! The additive closure of a table: lists of its objects, and matrices of combinations.
#![tactic(auto)]

mod build;
mod category;
mod compose;
mod diagonals;
mod entries;
mod linear;
mod morphism;
mod object;
mod products;
mod rows;
mod shape;
mod sizes;
mod two_sided;

pub use category::AddCat;
pub use morphism::AddMor;
pub use object::AddObj;
pub use shape::{Shape, first_wrong};
pub use sizes::checked as count_within_limits;
