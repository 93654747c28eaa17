//! Tests of the script language: reading, printing and checking.
#![tactic(auto)]

#[cfg(test)]
mod check;
#[cfg(test)]
mod checked;
#[cfg(test)]
mod faults;
#[cfg(test)]
mod lines;
#[cfg(test)]
mod literals;
#[cfg(test)]
mod parser;
#[cfg(test)]
mod printer;
#[cfg(test)]
mod script;
#[cfg(test)]
mod spelling;
#[cfg(test)]
mod symbols;
