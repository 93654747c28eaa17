//! Tests of what sessions run on: keys, states and steps.
#![tactic(auto)]

#[cfg(test)]
mod keys;
#[cfg(test)]
mod settle;
#[cfg(test)]
mod steps;
#[cfg(test)]
mod store;
