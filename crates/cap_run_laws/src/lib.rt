//! Plain evaluation has the operation's meaning.
#![tactic(auto)]

mod laws;

pub use laws::law_run_means;
