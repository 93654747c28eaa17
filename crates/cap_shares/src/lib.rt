//! Categories that sessions share: the state of each behind a turn, with the seats that its sessions have at it.
#![tactic(auto)]

mod behind;
mod rows;
mod seats;
mod shared;
#[cfg(test)]
mod tests;

pub use behind::Behind;
pub use rows::{join_row, split_row};
pub use seats::SessionSeat;
pub use shared::SharedCategory;
