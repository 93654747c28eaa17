//! Tests of matrices and of their reduction.
#![tactic(auto)]

#[cfg(test)]
mod matrix;
#[cfg(test)]
mod reduce;
