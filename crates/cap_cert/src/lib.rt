//! Certificates of plans: their text, and the check of their lines. Nothing here is the planner's.
#![tactic(auto)]

mod certs;
mod checker;
mod collector;
mod drafts;
mod faults;
mod lines;
mod machine;
mod reader;
mod refusal;
mod steps;
mod sums;
mod words;
mod writer;

pub use certs::{Cert, Verdict};
pub use checker::verify;
pub use drafts::Draft;
pub use machine::{Next, State};
pub use reader::read_certs;
pub use refusal::CertsFault;
pub use writer::write_cert;
