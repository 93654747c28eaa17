// Kernels, cokernels, lifts and colifts.
ghost use Rattle.std.specs.Prelude.{◌≡◌, ◌⊎◌};

use crate::Univ;
use crate::colift::freyd_colift;
use crate::kernels::{freyd_cokernel, freyd_kernel};
use crate::lift::freyd_lift;
use cap_freyd::FreydMor;
use cap_laws::{Abelian, Additive, CatFault, Lifts, WeakKernels};
use std::alloc::Global;

impl<P: Additive + WeakKernels + Lifts + Drop> Abelian for Univ<P> {
    ghost use Rattle.std.specs.Prelude.{◌⊎◌};
    ghost use Rattle.cap_freyd_laws.specs.Canonical.{kernel_of as kernel_below, cokernel_of as cokernel_below, lift_of as lift_below, colift_of as colift_below, lift_system, colift_system};
    ghost use Rattle.cap_freyd_laws.proofs.Kernel.{freyd-kernel};
    ghost use Rattle.cap_freyd_laws.proofs.Cokernel.{freyd-cokernel};
    ghost use Rattle.cap_freyd_laws.proofs.Lifts.{freyd-lift, freyd-colift};
    ghost use Rattle.cap_freyd_laws.proofs.Abelian.{freyd-abelian};
    ghost use Rattle.cap_freyd_univ.specs.Sizes.{kernel_meets as kernel_sizes, cokernel_meets as cokernel_sizes, lift_equations_meet, colift_equations_meet};

    ghost kernel_of = { λ c f. kernel_below (P.category c.freyd.below) (P.sum_of c.freyd.below) (P.weak_kernel_of c.freyd.below) f };

    ghost cokernel_of = { λ c f. cokernel_below (P.category c.freyd.below) (P.sum_of c.freyd.below) f };

    ghost lift_of = { λ c t f. lift_below (P.category c.freyd.below) (P.solution_of c.freyd.below) t f };

    ghost colift_of = { λ c f t. colift_below (P.category c.freyd.below) (P.solution_of c.freyd.below) f t };

    ghost kernel_meets = { λ c f s. kernel_sizes (P.category c.freyd.below) (P.sum_of c.freyd.below) (P.weak_kernel_of c.freyd.below) (P.direct_sum_meets c.freyd.below) (P.compose_meets c.freyd.below) (P.add_meets c.freyd.below) (P.weak_kernel_meets c.freyd.below) f s };

    ghost cokernel_meets = { λ c f s. cokernel_sizes (P.category c.freyd.below) (P.sum_of c.freyd.below) (P.direct_sum_meets c.freyd.below) (P.compose_meets c.freyd.below) (P.add_meets c.freyd.below) (P.identity_meets c.freyd.below) f s };

    ghost lift_meets = { λ c t f s. let K = P.category c.freyd.below in lift_equations_meet K (P.identity_meets c.freyd.below) (P.scale_meets c.freyd.below) (P.zero_meets c.freyd.below) t f s
        ⊎ P.system_meets c.freyd.below (lift_system K t.from.relation f.from.relation f.to.relation t.alpha f.alpha) s };

    ghost colift_meets = { λ c f t s. let K = P.category c.freyd.below in colift_equations_meet K (P.identity_meets c.freyd.below) (P.scale_meets c.freyd.below) (P.zero_meets c.freyd.below) f t s
        ⊎ P.system_meets c.freyd.below (colift_system K f.from.relation f.to.relation t.to.relation f.alpha t.alpha) s };

    fn kernel(&self, alloc: Global, f: &FreydMor<P>) -> Result<FreydMor<P>, CatFault> {
        freyd_kernel(self.freyd.below(), alloc, f)
    }

    fn cokernel(&self, alloc: Global, f: &FreydMor<P>) -> Result<FreydMor<P>, CatFault> {
        freyd_cokernel(self.freyd.below(), alloc, f)
    }

    fn lift(
        &self,
        alloc: Global,
        t: &FreydMor<P>,
        b: &FreydMor<P>,
    ) -> Result<Option<FreydMor<P>>, CatFault> {
        freyd_lift(self.freyd.below(), alloc, t, b)
    }

    fn colift(
        &self,
        alloc: Global,
        a: &FreydMor<P>,
        t: &FreydMor<P>,
    ) -> Result<Option<FreydMor<P>>, CatFault> {
        freyd_colift(self.freyd.below(), alloc, a, t)
    }

    ghost kernel_is = { λ c a b f F. freyd-kernel (P.linear c.freyd.below) (record { is = P.sum_is c.freyd.below }) (record { is = P.weak_kernel_is c.freyd.below }) F };

    ghost cokernel_is = { λ c a b f F. freyd-cokernel (P.linear c.freyd.below) (record { is = P.sum_is c.freyd.below }) F };

    ghost lift_is = { λ c x a b t f T F. freyd-lift (P.linear c.freyd.below) (record { is = P.solves c.freyd.below }) T F };

    ghost colift_is = { λ c a b x f t F T. freyd-colift (P.linear c.freyd.below) (record { is = P.solves c.freyd.below }) F T };

    ghost abelian = { λ c. freyd-abelian (P.linear c.freyd.below) (P.zero_object_of c.freyd.below) (P.zero_object_is c.freyd.below).object (record { is = P.sum_is c.freyd.below }) (record { is = P.weak_kernel_is c.freyd.below }) };
}
