//! What sessions that run at once are to the accounts: each history is made of the sessions' own events, in whatever order they took turns.
#![tactic(auto)]

mod laws;

pub use laws::law_runs_at_once_account;
