//! The outside of the program: where bytes come from and go to, and where sessions pass.
#![tactic(auto)]

mod errors;
mod gates;
mod memory;
mod sinks;
mod sources;
mod sure;
mod system;

pub use errors::{Failed, NoMemory, ReadEnd};
pub use gates::{Gate, GatePlace, OpenGate};
pub use memory::{MemSink, MemSource};
pub use sinks::{Sink, write_all};
pub use sources::{Source, read_all};
pub use sure::{SURE_SPACE, SureSink, SureSource};
pub use system::{StdSink, StdSource};
