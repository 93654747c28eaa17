//! The Freyd category of an additive category with weak kernels, in which systems are solved: its objects, its morphisms, and its additive structure.
#![tactic(auto)]

mod additive;
mod blocks;
mod category;
mod faults;
mod linear;
mod morphisms;
mod systems;

pub use blocks::rows_of;
pub use category::{Freyd, FreydMor, FreydObj};
pub use faults::MorphismFault;
pub use systems::{between, minus_identity};
