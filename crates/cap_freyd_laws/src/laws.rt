// The laws. These functions run nothing: a caller learns the law from the contract.
ghost use Rattle.cap_laws.specs.Linear.{IsLinear};
ghost use Rattle.cap_laws.specs.Universal.{IsAbelian};
ghost use Rattle.cap_freyd_laws.specs.Freyd.{freyd_data};
ghost use Rattle.cap_freyd_laws.specs.Laws.{FreydAdditive, FreydKernels, FreydCokernels, FreydImages, FreydLifts, FreydSystems};

use cap_laws::{Additive, Cat, Lifts, WeakKernels};

/// The Freyd category of a linear category is linear.
pub fn law_freyd_is_linear<C: Cat>()
    ensures { (c : C) → IsLinear (freyd_data (C.category c)) }
{}

/// The Freyd category of an additive category is additive, by block sums.
pub fn law_freyd_is_additive<C: Additive>()
    ensures { (c : C) → FreydAdditive (C.category c) (C.zero_object_of c) (C.sum_of c) }
{}

/// What is a morphism, what is congruent, and which lifts and colifts exist, is decided by systems below.
pub fn law_freyd_by_systems<C: Cat>()
    ensures { (c : C) → FreydSystems (C.category c) }
{}

/// The Freyd category of an additive category with weak kernels is abelian: every mono is a kernel of its cokernel, every epi a cokernel of its kernel.
pub fn law_freyd_is_abelian<C: Additive + WeakKernels>()
    ensures { (c : C) → IsAbelian (freyd_data (C.category c)) }
{}

/// The weak preimage of the target's relations, with that of the source's as its relations, is a kernel.
pub fn law_freyd_kernels<C: Additive + WeakKernels>()
    ensures { (c : C) → FreydKernels (C.category c) (C.sum_of c) (C.weak_kernel_of c) }
{}

/// The identity, onto the target's relations above the morphism, is a cokernel.
pub fn law_freyd_cokernels<C: Additive>()
    ensures { (c : C) → FreydCokernels (C.category c) (C.sum_of c) }
{}

/// The first unknown of a solved system is a lift or a colift; where the system has no solution, there is none.
pub fn law_freyd_lifts<C: Lifts>()
    ensures { (c : C) → FreydLifts (C.category c) (C.solution_of c) }
{}

/// The kernel of the cokernel, with the lift along it, is an image.
pub fn law_freyd_images<C: Additive + WeakKernels + Lifts>()
    ensures { (c : C) → FreydImages (C.category c) (C.sum_of c) (C.weak_kernel_of c) (C.solution_of c) }
{}
