//! Two-sided systems of linear equations, weak kernels and weak cokernels over a homomorphism structure.
#![tactic(auto)]

mod blocks;
mod equations;
mod solutions;
mod solved;
mod system;
mod turned;
mod weak_kernels;

pub use solved::Solved;
pub use system::{Answer, solve};
