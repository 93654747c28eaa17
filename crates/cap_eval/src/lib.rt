//! Calls of operations over any board that answers asks and puts.
#![tactic(auto)]

mod eval;

pub use cap_board::{Asked, Board, CallRefusal, PutAnswer};
pub use eval::call;
