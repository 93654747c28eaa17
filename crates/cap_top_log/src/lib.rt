//! The log of a run: the histories of its categories as they are written.
#![tactic(auto)]

mod events;
mod log;
mod replies;
#[cfg(test)]
mod tests;
mod values;

pub use log::log_text;
