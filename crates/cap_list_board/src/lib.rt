//! A board that is a list: the objects told, the kept entries, and the asks and puts with their answers.
#![tactic(auto)]

mod board;
mod copies;
mod entries;
mod list_board;
mod offered;
mod places;
mod refusals;
#[cfg(test)]
mod tests;

pub use cap_board::{Asked, Board, PutAnswer};
pub use entries::{Entry, Seen};
pub use list_board::ListBoard;
pub use offered::are_offered;
pub use refusals::DeclareRefusal;
