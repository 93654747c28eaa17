// The laws of reduced matrices and null rows, each a call that does nothing.
ghost use Rattle.cap_reduce.specs.Laws.{OneReducedMatrix, ReducedFormExists, OneReducedForm, NullBasisExists, OneNullBasis, NullBasisIsKernel, RankAndNullRows, SolutionExists, OneSolution, ObstructionRefutes, SolvedOrObstructed, OneGreedyList};

/// A span has at most one reduced matrix.
pub fn law_one_reduced_matrix()
    ensures { OneReducedMatrix }
{}

/// Each matrix has a reduced form.
pub fn law_reduced_form_exists()
    ensures { ReducedFormExists }
{}

/// A matrix has at most one reduced form.
pub fn law_one_reduced_form()
    ensures { OneReducedForm }
{}

/// Each matrix has a null-row basis.
pub fn law_null_basis_exists()
    ensures { NullBasisExists }
{}

/// A matrix has at most one null-row basis.
pub fn law_one_null_basis()
    ensures { OneNullBasis }
{}

/// The null-row basis of a matrix is a kernel of it.
pub fn law_null_basis_is_kernel()
    ensures { NullBasisIsKernel }
{}

/// The rank and the number of null rows add up to the number of rows.
pub fn law_rank_and_null_rows()
    ensures { RankAndNullRows }
{}

/// A row in the span of a matrix has a canonical solution.
pub fn law_solution_exists()
    ensures { SolutionExists }
{}

/// There is at most one canonical solution.
pub fn law_one_solution()
    ensures { OneSolution }
{}

/// A row with an obstruction is not in the span.
pub fn law_obstruction_refutes()
    ensures { ObstructionRefutes }
{}

/// Each row is in the span or has an obstruction.
pub fn law_solved_or_obstructed()
    ensures { SolvedOrObstructed }
{}

/// A matrix has one list of the rows that are no combination of those before them.
pub fn law_one_greedy_list()
    ensures { OneGreedyList }
{}
