// Block sums of relations, and the zero object.
ghost use Rattle.std.specs.Prelude.{◌≡◌, ◌⊎◌};
ghost use Rattle.cap_laws.specs.Answers.{Answers, Size};

use crate::blocks::rows_of;
use crate::category::{Freyd, FreydMor, FreydObj};
use crate::systems::between;
use cap_freyd_laws::Presentation;
use cap_laws::{Additive, CatFault, Lifts, Sum, WeakKernels};
use std::alloc::Global;

impl<P: Additive + WeakKernels + Lifts + Drop> Additive for Freyd<P> {
    ghost use Rattle.std.specs.Prelude.{◌⊎◌};
    ghost use Rattle.cap_freyd.specs.Sizes.{rows_meets};
    ghost use Rattle.cap_freyd_laws.specs.Canonical.{freyd_sum};
    ghost use Rattle.cap_freyd_laws.proofs.Sums.{freyd-sums, freyd-zero};

    ghost zero_object_of = { λ c. record { relation = (P.category c.below).identity (P.zero_object_of c.below) } };

    ghost sum_of = { λ c a b. freyd_sum (P.category c.below) (P.sum_of c.below) a b };

    ghost zero_object_meets = { λ c s. P.zero_object_meets c.below s ⊎ P.identity_meets c.below (P.zero_object_of c.below) s };

    ghost direct_sum_meets = { λ c a b s. let K = P.category c.below in let r = P.sum_of c.below (K.source a.relation) (K.source b.relation) in let d = P.sum_of c.below (K.target a.relation) (K.target b.relation) in
        (((P.direct_sum_meets c.below (K.source a.relation) (K.source b.relation) s ⊎ P.direct_sum_meets c.below (K.target a.relation) (K.target b.relation) s)
        ⊎ P.compose_meets c.below a.relation d.i1 s) ⊎ P.compose_meets c.below b.relation d.i2 s)
        ⊎ rows_meets K (P.compose_meets c.below) (P.add_meets c.below) r.p1 r.p2 (K.compose a.relation d.i1) (K.compose b.relation d.i2) s };

    fn zero_object(&self, alloc: Global) -> Result<FreydObj<P>, CatFault> {
        let zero = self.below.zero_object(alloc)?;
        let relation = self.below.identity(alloc, &zero)?;
        Ok(Presentation { relation })
    }

    fn direct_sum(
        &self,
        alloc: Global,
        a: &FreydObj<P>,
        b: &FreydObj<P>,
    ) -> Result<Sum<FreydMor<P>>, CatFault> {
        let below = self.below();
        let r = below.direct_sum(alloc, below.source(&a.relation), below.source(&b.relation))?;
        let d = below.direct_sum(alloc, below.target(&a.relation), below.target(&b.relation))?;
        let top = below.compose(alloc, &a.relation, &d.i1)?;
        let bottom = below.compose(alloc, &b.relation, &d.i2)?;
        let relation = rows_of(below, alloc, &r.p1, &r.p2, &top, &bottom)?;
        let whole = Presentation { relation };
        let Sum { i1, i2, p1, p2 } = d;
        Ok(Sum {
            i1: between(below, alloc, a, &whole, i1)?,
            i2: between(below, alloc, b, &whole, i2)?,
            p1: between(below, alloc, &whole, a, p1)?,
            p2: between(below, alloc, &whole, b, p2)?,
        })
    }

    ghost zero_object_is = { λ c. freyd-zero (P.linear c.below) (P.zero_object_of c.below) (P.zero_object_is c.below).object };

    ghost sum_is = { λ c a b p q. (freyd-sums (P.linear c.below) (record { is = P.sum_is c.below })).is a b p q };
}
