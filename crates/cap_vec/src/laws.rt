// Laws of the answers, each a call that does nothing.
ghost use Rattle.cap_vec.specs.Laws.{KernelIsNullBasis, LiftIsRowByRow, PullbackIsUniversal, PushoutIsUniversal, SolutionIsCanonical};

/// The kernel of a matrix is its null-row basis; cokernels, pullbacks and pushouts are made of kernels.
pub fn law_kernel_is_null_basis()
    ensures { KernelIsNullBasis }
{}

/// The lift solves row by row; the colift is the transpose of a lift of transposes.
pub fn law_lift_is_row_by_row()
    ensures { LiftIsRowByRow }
{}

/// The pullback that is answered has its universal property, whatever the sizes.
pub fn law_pullback_is_universal()
    ensures { PullbackIsUniversal }
{}

/// The pushout that is answered has its universal property, whatever the sizes.
pub fn law_pushout_is_universal()
    ensures { PushoutIsUniversal }
{}

/// The solution of a system is its canonical answer: that of its row equation, which is said by blocks, cut into the unknowns.
pub fn law_solution_is_canonical()
    ensures { SolutionIsCanonical }
{}
