//! Tests of operations, terms, rules, plans and certificates.
#![tactic(auto)]

#[cfg(test)]
mod cert;
#[cfg(test)]
mod ops;
#[cfg(test)]
mod plan;
#[cfg(test)]
mod registered;
#[cfg(test)]
mod rule_laws;
#[cfg(test)]
mod rules;
#[cfg(test)]
mod terms;
