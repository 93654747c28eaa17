//! Boards that answer asks and puts, and the traces of calls over them.
#![tactic(auto)]

mod answers;
mod board;
mod refusals;

pub use answers::{Asked, PutAnswer};
pub use board::Board;
pub use refusals::CallRefusal;
