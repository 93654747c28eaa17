//! The category of matrices modulo a prime: its laws, for matrices of any size.
#![tactic(auto)]

mod laws;

pub use laws::{
    law_canonical_answers, law_colift_by_transposes, law_kernel_in_plain_matrices,
    law_lift_by_rows, law_members_exist, law_no_lift_by_row, law_null_basis_is_cokernel,
    law_null_basis_is_kernel, law_one_canonical_answer, law_one_row_lift,
    law_pullback_by_null_basis, law_pushout_by_null_basis, law_row_equation_exists,
    law_row_lift_exists, law_row_lift_is_lift, law_systems_solved, law_vec_abelian, law_vec_linear,
};
