//! Laws of right histories: each value that is told is that of plain evaluation, and has the meaning of its operation.
#![tactic(auto)]

mod laws;

pub use laws::{law_accounts_are_right, law_legal_is_right};
