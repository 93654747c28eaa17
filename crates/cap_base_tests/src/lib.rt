//! Tests of tokens, streams, gates and the turn lock.
#![tactic(auto)]

#[cfg(test)]
mod io;
#[cfg(test)]
mod names;
#[cfg(test)]
mod turn;
