//! A session's place before a category: a board over a desk.
#![tactic(auto)]

mod board;
mod entering;
mod known;
mod memory;
mod seat;
mod tries;

pub use memory::Memory;
pub use seat::Seat;
pub use tries::{Tried, Try};
