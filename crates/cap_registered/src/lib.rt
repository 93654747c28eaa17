//! What the commands of a checked script's prelude register, and the certificates of its categories.
#![tactic(auto)]

mod certifying;
mod commands;
mod laws;
mod registering;

pub use certifying::certificates;
pub use commands::kind_of;
pub use laws::law_registers_are_accepted_once;
pub use registering::registered;
