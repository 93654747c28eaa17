// The laws. These functions run nothing: a caller learns the law from the contract.
ghost use Rattle.cap_solve_laws.specs.Laws.{SystemIsRow, HasSolver, HasWeakKernels};

use cap_homlaw::HomFp;
use cap_laws::Additive;

/// A system is one row equation.
pub fn law_system_is_a_row<C: HomFp>()
    ensures { (c : C) → SystemIsRow (C.category c) (C.hom c) }
{}

/// Every system has its canonical solution, or has no solution.
pub fn law_systems_are_answered<C: HomFp>()
    ensures { (c : C) → HasSolver (C.category c) (C.hom c) }
{}

/// Every morphism has a weak kernel and a weak cokernel, by generators.
pub fn law_weak_kernels_exist<C: HomFp + Additive>()
    ensures { (c : C) → HasWeakKernels (C.HomFp.category c) (C.hom c) (record { zero_object = C.zero_object_of c; sum = C.sum_of c }) }
{}
