//! What runs on one thread, of a session's commands and of whole scripts, are to the accounts.
#![tactic(auto)]

mod laws;

pub use laws::{
    law_chains_do, law_chains_go_on, law_items_go_on, law_runs_account, law_sessions_go_on,
};
