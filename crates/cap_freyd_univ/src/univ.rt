// The Freyd category, as one with universal objects: its linear and additive structure is that of `Freyd`.
ghost use Rattle.std.specs.Prelude.{◌≡◌, ◌⊎◌};
ghost use Rattle.cap_freyd_laws.specs.Freyd.{freyd_data};

use cap_field::Field;
use cap_freyd::{Freyd, FreydMor, FreydObj};
use cap_laws::{Additive, Cat, CatFault, Lifts, Preadditive, Sum, WeakKernels};
use std::alloc::Global;

/// The Freyd category of P, with kernels, cokernels, lifts, colifts and images.
#[derive(Debug, Drop)]
pub struct Univ<P> {
    pub(crate) freyd: Freyd<P>,
}

impl<P> Univ<P> {
    /// The same category, with its universal objects.
    pub fn new(c: Freyd<P>) -> Univ<P>
        ensures { result.freyd ≡ c }
    {
        Univ { freyd: c }
    }

    /// The category without them.
    pub fn freyd(&self) -> &Freyd<P>
        ensures { result.now ≡ self.now.freyd }
    {
        &self.freyd
    }
}

impl<P: Additive + WeakKernels + Lifts + Drop> Cat for Univ<P> {
    type Obj = FreydObj<P>;

    type Mor = FreydMor<P>;

    ghost use Rattle.std.specs.Prelude.{◌⊎◌};
    ghost use Rattle.cap_freyd.specs.Sizes.{difference_meets};
    ghost use Rattle.cap_freyd_laws.specs.Freyd.{freyd_data};
    ghost use Rattle.cap_freyd_laws.specs.Canonical.{congruence_system};
    ghost use Rattle.cap_freyd_laws.proofs.Linear.{freyd-linear};

    ghost category = { λ c. freyd_data (P.category c.freyd.below) };

    ghost identity_meets = { λ c a. P.identity_meets c.freyd.below ((P.category c.freyd.below).target a.relation) };

    ghost compose_meets = { λ c f g. P.compose_meets c.freyd.below f.alpha g.alpha };

    ghost congruent_meets = { λ c f g s. let K = P.category c.freyd.below in (difference_meets K (P.scale_meets c.freyd.below) (P.add_meets c.freyd.below) f.alpha g.alpha s ⊎ P.identity_meets c.freyd.below (K.target f.from.relation) s)
        ⊎ P.system_meets c.freyd.below (congruence_system K f.from.relation f.to.relation f.alpha g.alpha) s };

    fn source<'a>(&self, f: &'a FreydMor<P>) -> &'a FreydObj<P> {
        self.freyd.source(f)
    }

    fn target<'a>(&self, f: &'a FreydMor<P>) -> &'a FreydObj<P> {
        self.freyd.target(f)
    }

    fn same_object(&self, a: &FreydObj<P>, b: &FreydObj<P>) -> bool {
        self.freyd.same_object(a, b)
    }

    fn same_morphism(&self, f: &FreydMor<P>, g: &FreydMor<P>) -> bool {
        self.freyd.same_morphism(f, g)
    }

    fn copy_object(&self, alloc: Global, a: &FreydObj<P>) -> Result<FreydObj<P>, CatFault> {
        self.freyd.copy_object(alloc, a)
    }

    fn copy_morphism(&self, alloc: Global, f: &FreydMor<P>) -> Result<FreydMor<P>, CatFault> {
        self.freyd.copy_morphism(alloc, f)
    }

    fn identity(&self, alloc: Global, a: &FreydObj<P>) -> Result<FreydMor<P>, CatFault> {
        self.freyd.identity(alloc, a)
    }

    fn compose(
        &self,
        alloc: Global,
        f: &FreydMor<P>,
        g: &FreydMor<P>,
    ) -> Result<FreydMor<P>, CatFault> {
        self.freyd.compose(alloc, f, g)
    }

    fn congruent(&self, alloc: Global, f: &FreydMor<P>, g: &FreydMor<P>) -> Result<bool, CatFault> {
        self.freyd.congruent(alloc, f, g)
    }

    ghost linear = { λ c. freyd-linear (P.linear c.freyd.below) };
}

impl<P: Additive + WeakKernels + Lifts + Drop> Preadditive for Univ<P> {
    ghost zero_meets = { λ c a b. P.zero_meets c.freyd.below ((P.category c.freyd.below).target a.relation) ((P.category c.freyd.below).target b.relation) };

    ghost add_meets = { λ c f g. P.add_meets c.freyd.below f.alpha g.alpha };

    ghost scale_meets = { λ c n f. P.scale_meets c.freyd.below n f.alpha };

    fn field(&self) -> Field {
        self.freyd.field()
    }

    fn zero(
        &self,
        alloc: Global,
        a: &FreydObj<P>,
        b: &FreydObj<P>,
    ) -> Result<FreydMor<P>, CatFault> {
        self.freyd.zero(alloc, a, b)
    }

    fn add(
        &self,
        alloc: Global,
        f: &FreydMor<P>,
        g: &FreydMor<P>,
    ) -> Result<FreydMor<P>, CatFault> {
        self.freyd.add(alloc, f, g)
    }

    fn scale(&self, alloc: Global, n: u16, f: &FreydMor<P>) -> Result<FreydMor<P>, CatFault> {
        self.freyd.scale(alloc, n, f)
    }
}

impl<P: Additive + WeakKernels + Lifts + Drop> Additive for Univ<P> {
    ghost use Rattle.std.specs.Prelude.{◌⊎◌};
    ghost use Rattle.cap_freyd.specs.Sizes.{rows_meets};
    ghost use Rattle.cap_freyd_laws.specs.Canonical.{freyd_sum};
    ghost use Rattle.cap_freyd_laws.proofs.Sums.{freyd-sums, freyd-zero};

    ghost zero_object_of = { λ c. record { relation = (P.category c.freyd.below).identity (P.zero_object_of c.freyd.below) } };

    ghost sum_of = { λ c a b. freyd_sum (P.category c.freyd.below) (P.sum_of c.freyd.below) a b };

    ghost zero_object_meets = { λ c s. P.zero_object_meets c.freyd.below s ⊎ P.identity_meets c.freyd.below (P.zero_object_of c.freyd.below) s };

    ghost direct_sum_meets = { λ c a b s. let K = P.category c.freyd.below in let r = P.sum_of c.freyd.below (K.source a.relation) (K.source b.relation) in let d = P.sum_of c.freyd.below (K.target a.relation) (K.target b.relation) in
        (((P.direct_sum_meets c.freyd.below (K.source a.relation) (K.source b.relation) s ⊎ P.direct_sum_meets c.freyd.below (K.target a.relation) (K.target b.relation) s)
        ⊎ P.compose_meets c.freyd.below a.relation d.i1 s) ⊎ P.compose_meets c.freyd.below b.relation d.i2 s)
        ⊎ rows_meets K (P.compose_meets c.freyd.below) (P.add_meets c.freyd.below) r.p1 r.p2 (K.compose a.relation d.i1) (K.compose b.relation d.i2) s };

    fn zero_object(&self, alloc: Global) -> Result<FreydObj<P>, CatFault> {
        self.freyd.zero_object(alloc)
    }

    fn direct_sum(
        &self,
        alloc: Global,
        a: &FreydObj<P>,
        b: &FreydObj<P>,
    ) -> Result<Sum<FreydMor<P>>, CatFault> {
        self.freyd.direct_sum(alloc, a, b)
    }

    ghost zero_object_is = { λ c. freyd-zero (P.linear c.freyd.below) (P.zero_object_of c.freyd.below) (P.zero_object_is c.freyd.below).object };

    ghost sum_is = { λ c a b p q. (freyd-sums (P.linear c.freyd.below) (record { is = P.sum_is c.freyd.below })).is a b p q };
}
