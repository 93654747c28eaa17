//! Reading a list of items by productions: languages, steps, the law that each step keeps, and why nothing was read.
#![tactic(auto)]

#[cfg(test)]
mod example;
mod fault;
#[cfg(test)]
mod pages;

pub use fault::ReadError;
