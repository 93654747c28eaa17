// The laws, each a call that does nothing.
ghost use Rattle.cap_vec_laws.specs.Laws.{VecLinear, VecAbelian, KernelInPlainMatrices, NullBasisIsKernel, NullBasisIsCokernel, PullbackByNullBasis, PushoutByNullBasis, LiftByRows, NoLiftByRow, RowLiftExists, RowLiftIsLift, OneRowLift, ColiftByTransposes, MembersExist, RowEquationExists, CanonicalAnswers, OneCanonicalAnswer, SystemsSolved};

/// Matrices modulo a prime of the table are a linear category.
pub fn law_vec_linear()
    ensures { VecLinear }
{}

/// They are an abelian category.
pub fn law_vec_abelian()
    ensures { VecAbelian }
{}

/// Kernels in plain matrices are the kernels of the category.
pub fn law_kernel_in_plain_matrices()
    ensures { KernelInPlainMatrices }
{}

/// The null-row basis is a kernel.
pub fn law_null_basis_is_kernel()
    ensures { NullBasisIsKernel }
{}

/// The transpose of the null-row basis of the transpose is a cokernel.
pub fn law_null_basis_is_cokernel()
    ensures { NullBasisIsCokernel }
{}

/// The null-row basis of f above −g, cut, is a pullback.
pub fn law_pullback_by_null_basis()
    ensures { PullbackByNullBasis }
{}

/// The transposes of that of the transposes are a pushout.
pub fn law_pushout_by_null_basis()
    ensures { PushoutByNullBasis }
{}

/// A lift is found row by row.
pub fn law_lift_by_rows()
    ensures { LiftByRows }
{}

/// A row outside the span refutes a lift.
pub fn law_no_lift_by_row()
    ensures { NoLiftByRow }
{}

/// Each two matrices with one target have a canonical lift or none.
pub fn law_row_lift_exists()
    ensures { RowLiftExists }
{}

/// The canonical lift is a lift.
pub fn law_row_lift_is_lift()
    ensures { RowLiftIsLift }
{}

/// There is one canonical lift.
pub fn law_one_row_lift()
    ensures { OneRowLift }
{}

/// The transpose of a lift of transposes is a colift.
pub fn law_colift_by_transposes()
    ensures { ColiftByTransposes }
{}

/// Kernels and lifts are functions of data.
pub fn law_members_exist()
    ensures { MembersExist }
{}

/// Each system of linear equations between matrices has one matrix and one row of values, with the blocks of its terms.
pub fn law_row_equation_exists()
    ensures { RowEquationExists }
{}

/// The canonical solution of that row equation, cut into the unknowns, answers the system.
pub fn law_canonical_answers()
    ensures { CanonicalAnswers }
{}

/// There is one canonical answer.
pub fn law_one_canonical_answer()
    ensures { OneCanonicalAnswer }
{}

/// A function of data answers each system of linear equations between matrices, by its canonical solution.
pub fn law_systems_solved()
    ensures { SystemsSolved }
{}
