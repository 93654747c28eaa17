// Zeros, sums and multiples, by those below.
ghost use Rattle.std.specs.Prelude.{◌≡◌};

use crate::category::{Freyd, FreydMor, FreydObj};
use crate::systems::between;
use cap_field::Field;
use cap_laws::{Additive, CatFault, Lifts, Preadditive, WeakKernels};
use std::alloc::Global;

impl<P: Additive + WeakKernels + Lifts + Drop> Preadditive for Freyd<P> {
    ghost zero_meets = { λ c a b. P.zero_meets c.below ((P.category c.below).target a.relation) ((P.category c.below).target b.relation) };

    ghost add_meets = { λ c f g. P.add_meets c.below f.alpha g.alpha };

    ghost scale_meets = { λ c n f. P.scale_meets c.below n f.alpha };

    fn field(&self) -> Field {
        self.below.field()
    }

    fn zero(
        &self,
        alloc: Global,
        a: &FreydObj<P>,
        b: &FreydObj<P>,
    ) -> Result<FreydMor<P>, CatFault> {
        let x = self.below.target(&a.relation);
        let y = self.below.target(&b.relation);
        let alpha = self.below.zero(alloc, x, y)?;
        between(&self.below, alloc, a, b, alpha)
    }

    fn add(
        &self,
        alloc: Global,
        f: &FreydMor<P>,
        g: &FreydMor<P>,
    ) -> Result<FreydMor<P>, CatFault> {
        let alpha = self.below.add(alloc, &f.alpha, &g.alpha)?;
        between(&self.below, alloc, &f.from, &f.to, alpha)
    }

    fn scale(&self, alloc: Global, n: u16, f: &FreydMor<P>) -> Result<FreydMor<P>, CatFault> {
        let alpha = self.below.scale(alloc, n, &f.alpha)?;
        between(&self.below, alloc, &f.from, &f.to, alpha)
    }
}
