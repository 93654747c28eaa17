// Images: the kernel of the cokernel, and the lift along it.
ghost use Rattle.std.specs.Prelude.{◌≡◌, ◌⊎◌};
ghost use Rattle.cap_laws.specs.Answers.{Answers, Size};
ghost use Rattle.cap_freyd_laws.specs.Freyd.{IsFreydMorphism};
ghost use Rattle.cap_freyd_laws.specs.Canonical.{cokernel_of, image_embedding, image_of, lift_system};
ghost use Rattle.cap_freyd_univ.specs.Sizes.{kernel_meets, cokernel_meets, lift_equations_meet};

use crate::Univ;
use crate::kernels::{freyd_cokernel, freyd_kernel};
use crate::lift::freyd_lift;
use cap_freyd::FreydMor;
use cap_laws::{Additive, CatFault, Lifts, WeakKernels};
use std::alloc::Global;

/// The lift of f along the kernel of its cokernel, and that kernel.
fn freyd_image<P: Additive + WeakKernels + Lifts>(
    below: &P,
    alloc: Global,
    f: &FreydMor<P>,
) -> Result<(FreydMor<P>, FreydMor<P>), CatFault>
    requires { IsFreydMorphism (P.category below.now) f.now.from.relation f.now.to.relation f.now.alpha }
    ensures { let c = below.now in let K = P.category c in let m = image_embedding K (P.sum_of c) (P.weak_kernel_of c) f.now in
        Answers (λ s. (cokernel_meets K (P.sum_of c) (P.direct_sum_meets c) (P.compose_meets c) (P.add_meets c) (P.identity_meets c) f.now s
        ⊎ kernel_meets K (P.sum_of c) (P.weak_kernel_of c) (P.direct_sum_meets c) (P.compose_meets c) (P.add_meets c) (P.weak_kernel_meets c) (cokernel_of K (P.sum_of c) f.now) s)
        ⊎ (lift_equations_meet K (P.identity_meets c) (P.scale_meets c) (P.zero_meets c) f.now m s
        ⊎ P.system_meets c (lift_system K f.now.from.relation m.from.relation m.to.relation f.now.alpha m.alpha) s))
        (λ x. x ≡ image_of K (P.sum_of c) (P.weak_kernel_of c) (P.solution_of c) f.now) result }
{
    let projection = freyd_cokernel(below, alloc, f)?;
    let embedding = freyd_kernel(below, alloc, &projection)?;
    let lift = freyd_lift(below, alloc, f, &embedding)?;
    let Some(e) = lift else {
        unreachable!();
    };
    Ok((e, embedding))
}

impl<P: Additive + WeakKernels + Lifts> Univ<P> {
    /// The image of f: a morphism e and a mono m with e·m congruent to f; m is the least mono that f factors through.
    pub fn image(
        &self,
        alloc: Global,
        f: &FreydMor<P>,
    ) -> Result<(FreydMor<P>, FreydMor<P>), CatFault>
        requires { IsFreydMorphism (P.category self.now.freyd.below) f.now.from.relation f.now.to.relation f.now.alpha }
        ensures { let c = self.now.freyd.below in let K = P.category c in let m = image_embedding K (P.sum_of c) (P.weak_kernel_of c) f.now in
            Answers (λ s. (cokernel_meets K (P.sum_of c) (P.direct_sum_meets c) (P.compose_meets c) (P.add_meets c) (P.identity_meets c) f.now s
            ⊎ kernel_meets K (P.sum_of c) (P.weak_kernel_of c) (P.direct_sum_meets c) (P.compose_meets c) (P.add_meets c) (P.weak_kernel_meets c) (cokernel_of K (P.sum_of c) f.now) s)
            ⊎ (lift_equations_meet K (P.identity_meets c) (P.scale_meets c) (P.zero_meets c) f.now m s
            ⊎ P.system_meets c (lift_system K f.now.from.relation m.from.relation m.to.relation f.now.alpha m.alpha) s))
            (λ x. x ≡ image_of K (P.sum_of c) (P.weak_kernel_of c) (P.solution_of c) f.now) result }
    {
        freyd_image(self.freyd.below(), alloc, f)
    }
}
