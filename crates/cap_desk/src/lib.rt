//! Where a session puts its events: a category's state that is its own, or that it shares.
#![tactic(auto)]

mod desk;
mod laws;
mod ledger;
mod own;

pub use desk::Desk;
pub use laws::law_woven_alone;
pub use ledger::Ledger;
pub use own::OwnDesk;
