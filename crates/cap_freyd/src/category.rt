// The Freyd category as a category.
ghost use Rattle.std.specs.Prelude.{◌≡◌, ◌⊎◌};
ghost use Rattle.cap_laws.specs.Answers.{Answers, Size};
ghost use Rattle.cap_freyd_laws.specs.Freyd.{freyd_data};

use crate::blocks::difference;
use crate::systems::{between, one_equation};
use cap_freyd_laws::{Presentation, PresentationMor};
use cap_laws::{Additive, Cat, CatFault, Lifts, WeakKernels};
use std::alloc::Global;

/// An object of the Freyd category of P: a relation.
pub type FreydObj<P: Cat> = Presentation<P::Mor>;

/// A morphism of the Freyd category of P.
pub type FreydMor<P: Cat> = PresentationMor<P::Mor>;

/// The Freyd category of a category.
#[derive(Debug, Drop)]
pub struct Freyd<P> {
    pub(crate) below: P,
}

impl<P> Freyd<P> {
    /// The Freyd category of a category.
    pub fn new(below: P) -> Freyd<P>
        ensures { result.below ≡ below }
    {
        Freyd { below }
    }

    /// The category below.
    pub fn below(&self) -> &P
        ensures { result.now ≡ self.now.below }
    {
        &self.below
    }
}

impl<P: Additive + WeakKernels + Lifts + Drop> Cat for Freyd<P> {
    type Obj = FreydObj<P>;

    type Mor = FreydMor<P>;

    ghost use Rattle.std.specs.Prelude.{◌⊎◌};
    ghost use Rattle.cap_freyd.specs.Sizes.{difference_meets};
    ghost use Rattle.cap_freyd_laws.specs.Freyd.{freyd_data};
    ghost use Rattle.cap_freyd_laws.specs.Canonical.{congruence_system};
    ghost use Rattle.cap_freyd_laws.proofs.Linear.{freyd-linear};

    ghost category = { λ c. freyd_data (P.category c.below) };

    ghost identity_meets = { λ c a. P.identity_meets c.below ((P.category c.below).target a.relation) };

    ghost compose_meets = { λ c f g. P.compose_meets c.below f.alpha g.alpha };

    ghost congruent_meets = { λ c f g s. let K = P.category c.below in (difference_meets K (P.scale_meets c.below) (P.add_meets c.below) f.alpha g.alpha s ⊎ P.identity_meets c.below (K.target f.from.relation) s)
        ⊎ P.system_meets c.below (congruence_system K f.from.relation f.to.relation f.alpha g.alpha) s };

    fn source<'a>(&self, f: &'a FreydMor<P>) -> &'a FreydObj<P> {
        &f.from
    }

    fn target<'a>(&self, f: &'a FreydMor<P>) -> &'a FreydObj<P> {
        &f.to
    }

    fn same_object(&self, a: &FreydObj<P>, b: &FreydObj<P>) -> bool {
        self.below.same_morphism(&a.relation, &b.relation)
    }

    fn same_morphism(&self, f: &FreydMor<P>, g: &FreydMor<P>) -> bool {
        self.below.same_morphism(&f.from.relation, &g.from.relation)
            && self.below.same_morphism(&f.to.relation, &g.to.relation)
            && self.below.same_morphism(&f.alpha, &g.alpha)
    }

    fn copy_object(&self, alloc: Global, a: &FreydObj<P>) -> Result<FreydObj<P>, CatFault> {
        let relation = self.below.copy_morphism(alloc, &a.relation)?;
        Ok(Presentation { relation })
    }

    fn copy_morphism(&self, alloc: Global, f: &FreydMor<P>) -> Result<FreydMor<P>, CatFault> {
        let alpha = self.below.copy_morphism(alloc, &f.alpha)?;
        between(&self.below, alloc, &f.from, &f.to, alpha)
    }

    fn identity(&self, alloc: Global, a: &FreydObj<P>) -> Result<FreydMor<P>, CatFault> {
        let alpha = self.below.identity(alloc, self.below.target(&a.relation))?;
        between(&self.below, alloc, a, a, alpha)
    }

    fn compose(
        &self,
        alloc: Global,
        f: &FreydMor<P>,
        g: &FreydMor<P>,
    ) -> Result<FreydMor<P>, CatFault> {
        let alpha = self.below.compose(alloc, &f.alpha, &g.alpha)?;
        between(&self.below, alloc, &f.from, &g.to, alpha)
    }

    fn congruent(&self, alloc: Global, f: &FreydMor<P>, g: &FreydMor<P>) -> Result<bool, CatFault> {
        let value = difference(&self.below, alloc, &f.alpha, &g.alpha)?;
        let x = self.below.target(&f.from.relation);
        let y = self.below.source(&f.to.relation);
        let system = one_equation(&self.below, alloc, x, y, &f.to.relation, value)?;
        let solution = self.below.solve_system(alloc, &system)?;
        Ok(solution.is_some())
    }

    ghost linear = { λ c. freyd-linear (P.linear c.below) };
}
