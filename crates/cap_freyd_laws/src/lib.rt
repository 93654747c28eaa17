//! The Freyd category of a linear category: its objects and morphisms, and its laws.
#![tactic(auto)]

pub mod laws;
mod values;

pub use values::{Presentation, PresentationMor};
