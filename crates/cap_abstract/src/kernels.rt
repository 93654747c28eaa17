// Kernels, equalizers and pullbacks.
ghost use Rattle.cap_abstract.specs.Squares.{KernelFromEqualizer, EqualizerFromKernel, WeakKernelFromKernel, KernelFromPullback, PullbackFromKernel, PullbackFromEqualizer, EqualizerFromPullback, KernelMap, IntersectionFromPullback};
ghost use Rattle.cap_laws.specs.Universal.{opposite};

use cap_laws::Preadditive;

/// An equalizer of f and 0 is a kernel of f; dually for cokernels.
pub fn law_kernel_from_equalizer<C: Preadditive>()
    ensures law { (c : C) → KernelFromEqualizer (C.category c) }
    ensures dual { (c : C) → KernelFromEqualizer (opposite (C.category c)) }
{}

/// A kernel of f − g is an equalizer of f and g; dually for coequalizers.
pub fn law_equalizer_from_kernel<C: Preadditive>()
    ensures law { (c : C) → EqualizerFromKernel (C.category c) }
    ensures dual { (c : C) → EqualizerFromKernel (opposite (C.category c)) }
{}

/// A kernel is a weak kernel; dually for cokernels.
pub fn law_weak_kernel_from_kernel<C: Preadditive>()
    ensures law { (c : C) → WeakKernelFromKernel (C.category c) }
    ensures dual { (c : C) → WeakKernelFromKernel (opposite (C.category c)) }
{}

/// A pullback of f and 0 out of a zero object gives a kernel of f; dually, a pushout gives a cokernel.
pub fn law_kernel_from_pullback<C: Preadditive>()
    ensures law { (c : C) → KernelFromPullback (C.category c) }
    ensures dual { (c : C) → KernelFromPullback (opposite (C.category c)) }
{}

/// A kernel on the direct sum of the sources gives a pullback; dually, a cokernel gives a pushout.
pub fn law_pullback_from_kernel<C: Preadditive>()
    ensures law { (c : C) → PullbackFromKernel (C.category c) }
    ensures dual { (c : C) → PullbackFromKernel (opposite (C.category c)) }
{}

/// An equalizer on the product of the sources gives a pullback; dually, a coequalizer gives a pushout.
pub fn law_pullback_from_equalizer<C: Preadditive>()
    ensures law { (c : C) → PullbackFromEqualizer (C.category c) }
    ensures dual { (c : C) → PullbackFromEqualizer (opposite (C.category c)) }
{}

/// A pullback of the graphs of f and g gives their equalizer; dually, a pushout gives a coequalizer.
pub fn law_equalizer_from_pullback<C: Preadditive>()
    ensures law { (c : C) → EqualizerFromPullback (C.category c) }
    ensures dual { (c : C) → EqualizerFromPullback (opposite (C.category c)) }
{}

/// A square from f to g gives one morphism between their kernels; dually for cokernels.
pub fn law_kernel_map<C: Preadditive>()
    ensures law { (c : C) → KernelMap (C.category c) }
    ensures dual { (c : C) → KernelMap (opposite (C.category c)) }
{}

/// A pullback followed by its base is an intersection.
pub fn law_intersection_from_pullback<C: Preadditive>()
    ensures { (c : C) → IntersectionFromPullback (C.category c) }
{}
