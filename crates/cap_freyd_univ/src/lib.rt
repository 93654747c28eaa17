//! Universal objects of Freyd categories: kernels, cokernels, lifts, colifts and images.
#![tactic(auto)]

mod abelian;
mod colift;
mod equations;
mod image;
mod kernels;
mod lift;
mod solved;
mod univ;

pub use univ::Univ;
