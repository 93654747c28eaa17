//! Tests of the kinds of categories.
#![tactic(auto)]

#[cfg(test)]
mod abstract_laws;
#[cfg(test)]
mod data;
#[cfg(test)]
mod freyd_laws;
#[cfg(test)]
mod lincat;
#[cfg(test)]
mod offer;
#[cfg(test)]
mod quiver;
#[cfg(test)]
mod vec;
