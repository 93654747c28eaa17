//! The cells of matrices as coefficients: the laws of their homomorphism structure.
#![tactic(auto)]

mod laws;

pub use laws::{law_cells_are_coefficients, law_two_sided_products_of_matrices};
