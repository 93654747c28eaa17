//! The soundness of the 59 derivation rules.
#![tactic(auto)]

pub mod laws;

pub use laws::{law_meanings_fit, sound_abelian, sound_linear};
