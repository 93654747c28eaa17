// Row reduction of matrices over prime fields: reduced forms, null rows, solutions.
#![tactic(auto)]

mod elimination;
mod forms;
mod laws;
mod nulls;
mod obstructed;
mod scan;
mod solving;

pub use cap_names::Items;
pub use forms::{reduce_in_place, rref};
pub use laws::{
    law_null_basis_exists, law_null_basis_is_kernel, law_obstruction_refutes, law_one_greedy_list,
    law_one_null_basis, law_one_reduced_form, law_one_reduced_matrix, law_one_solution,
    law_rank_and_null_rows, law_reduced_form_exists, law_solution_exists, law_solved_or_obstructed,
};
pub use nulls::null_rows;
pub use solving::{Rows, Solved, SolvedRows, greedy, solve, solve_rows};
