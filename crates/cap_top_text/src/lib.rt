//! The text of a run: what is written for a script and the report of its run.
#![tactic(auto)]

mod book;
mod data;
mod home;
mod lines;
mod numbers;
#[cfg(test)]
mod tests;
mod text;
mod values;

pub use book::{Book, Bound, Made};
pub use data::{push_morphism, push_number, push_text};
pub use home::Home;
pub use lines::Histories;
pub use text::report_text;
pub use values::push_operation;
