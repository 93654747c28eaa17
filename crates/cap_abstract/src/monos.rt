// Monos, epis and isomorphisms.
ghost use Rattle.cap_abstract.specs.Cancelling.{MonoByKernel, MonoByWeakKernel, MonoByPullback, InverseBySection, IsoBySplits, IsoByMonoAndEpi};
ghost use Rattle.cap_laws.specs.Universal.{opposite};

use cap_laws::{Abelian, Preadditive};

/// A morphism is mono exactly where its kernel is 0; dually for epis.
pub fn law_mono_by_kernel<C: Preadditive>()
    ensures law { (c : C) → MonoByKernel (C.category c) }
    ensures dual { (c : C) → MonoByKernel (opposite (C.category c)) }
{}

/// A morphism is mono exactly where a weak kernel of it is 0; dually for epis.
pub fn law_mono_by_weak_kernel<C: Preadditive>()
    ensures law { (c : C) → MonoByWeakKernel (C.category c) }
    ensures dual { (c : C) → MonoByWeakKernel (opposite (C.category c)) }
{}

/// A morphism is mono exactly where the parts of its pullback with itself are congruent; dually for epis.
pub fn law_mono_by_pullback<C: Preadditive>()
    ensures law { (c : C) → MonoByPullback (C.category c) }
    ensures dual { (c : C) → MonoByPullback (opposite (C.category c)) }
{}

/// A section of an isomorphism is its inverse; dually for retractions.
pub fn law_inverse_by_section<C: Preadditive>()
    ensures law { (c : C) → InverseBySection (C.category c) }
    ensures dual { (c : C) → InverseBySection (opposite (C.category c)) }
{}

/// An isomorphism is a split mono that is a split epi.
pub fn law_iso_by_splits<C: Preadditive>()
    ensures { (c : C) → IsoBySplits (C.category c) }
{}

/// In an abelian category an isomorphism is a mono that is epi.
pub fn law_iso_by_mono_and_epi<C: Abelian>()
    ensures { (c : C) → IsoByMonoAndEpi (C.category c) }
{}
