// Homology and exactness.
ghost use Rattle.cap_abstract.specs.Exactness.{HomologyFromKernel, ExactByKernels, ExactByWeakKernels};

use cap_laws::Preadditive;

/// A kernel and a cokernel of the lift into it are the homology, which exists exactly where f·g is 0.
pub fn law_homology_from_kernel<C: Preadditive>()
    ensures { (c : C) → HomologyFromKernel (C.category c) }
{}

/// f and g are exact exactly where f·g is 0 and the kernel of g followed by the cokernel of f is 0.
pub fn law_exact_by_kernels<C: Preadditive>()
    ensures { (c : C) → ExactByKernels (C.category c) }
{}

/// The same by a weak kernel and a weak cokernel.
pub fn law_exact_by_weak_kernels<C: Preadditive>()
    ensures { (c : C) → ExactByWeakKernels (C.category c) }
{}
