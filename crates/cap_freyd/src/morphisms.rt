// Objects and morphisms from data.
ghost use Rattle.std.specs.Prelude.{◌≡◌, ◌⊎◌};
ghost use Rattle.cap_laws.specs.Answers.{Size};
ghost use Rattle.cap_laws.specs.Linear.{Arrow};
ghost use Rattle.cap_freyd_laws.specs.Freyd.{IsFreydMorphism};
ghost use Rattle.cap_freyd_laws.specs.Canonical.{morphism_system};
ghost use Rattle.cap_freyd.specs.Morphisms.{AnswersMorphism};

use crate::category::{Freyd, FreydMor, FreydObj};
use crate::faults::MorphismFault;
use crate::systems::{between, one_equation};
use cap_freyd_laws::{Presentation, PresentationMor};
use cap_laws::{Additive, Lifts, WeakKernels};
use std::alloc::Global;

impl<P: Additive + WeakKernels + Lifts> Freyd<P> {
    /// The object of this relation.
    pub fn object(&self, rho: P::Mor) -> FreydObj<P>
        requires { (P.category self.now.below).is_morphism rho }
        ensures { result ≡ record { relation = rho } }
    {
        Presentation { relation: rho }
    }

    /// The morphism of these data: between the targets of two relations, and known to send the relations of its source into those of its target.
    /// No system is solved.
    pub fn known_morphism(&self, from: FreydObj<P>, to: FreydObj<P>, alpha: P::Mor) -> FreydMor<P>
        requires { IsFreydMorphism (P.category self.now.below) from.relation to.relation alpha }
        ensures { result ≡ record { from = from; to = to; alpha = alpha } }
    {
        PresentationMor { from, to, alpha }
    }

    /// The morphism of these data between copies of a and b. `NotAMorphism` exactly where no omega has a·alpha = omega·b, for the relations a and b.
    pub fn morphism(
        &self,
        alloc: Global,
        a: &FreydObj<P>,
        b: &FreydObj<P>,
        alpha: P::Mor,
    ) -> Result<FreydMor<P>, MorphismFault>
        requires left { (P.category self.now.below).is_morphism a.now.relation }
        requires right { (P.category self.now.below).is_morphism b.now.relation }
        requires arrow { let K = P.category self.now.below in Arrow K (K.target a.now.relation) (K.target b.now.relation) alpha }
        ensures { let K = P.category self.now.below in AnswersMorphism K (λ s. (P.compose_meets self.now.below a.now.relation alpha s ⊎ P.identity_meets self.now.below (K.source a.now.relation) s)
            ⊎ P.system_meets self.now.below (morphism_system K a.now.relation b.now.relation alpha) s) a.now b.now alpha result }
    {
        let below = &self.below;
        let value = below.compose(alloc, &a.relation, &alpha)?;
        let x = below.source(&a.relation);
        let y = below.source(&b.relation);
        let system = one_equation(below, alloc, x, y, &b.relation, value)?;
        let solution = below.solve_system(alloc, &system)?;
        if solution.is_some() {
            return Ok(between(below, alloc, a, b, alpha)?);
        }
        Err(MorphismFault::NotAMorphism)
    }
}
