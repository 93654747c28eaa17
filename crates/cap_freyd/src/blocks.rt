// One morphism above another, and differences, in the category below.
ghost use Rattle.std.specs.Prelude.{◌≡◌, ◌⊎◌};
ghost use Rattle.cap_laws.specs.Answers.{Answers, Size};
ghost use Rattle.cap_laws.specs.Factor.{rows};
ghost use Rattle.cap_laws.specs.Universal.{subtract};
ghost use Rattle.cap_freyd.specs.Sizes.{RowsFit, rows_meets, difference_meets};

use cap_laws::{CatFault, Preadditive};
use std::alloc::Global;

/// p1·f + p2·g: f above g, where p1 and p2 are the projections of the direct sum of their sources.
pub fn rows_of<P: Preadditive>(
    below: &P,
    alloc: Global,
    p1: &P::Mor,
    p2: &P::Mor,
    f: &P::Mor,
    g: &P::Mor,
) -> Result<P::Mor, CatFault>
    requires fit { RowsFit (P.category below.now) p1.now p2.now f.now g.now }
    ensures { Answers (rows_meets (P.category below.now) (P.compose_meets below.now) (P.add_meets below.now) p1.now p2.now f.now g.now) (λ x. x ≡ rows (P.category below.now) p1.now p2.now f.now g.now) result }
{
    let top = below.compose(alloc, p1, f)?;
    let bottom = below.compose(alloc, p2, g)?;
    below.add(alloc, &top, &bottom)
}

/// f − g.
pub(crate) fn difference<P: Preadditive>(
    below: &P,
    alloc: Global,
    f: &P::Mor,
    g: &P::Mor,
) -> Result<P::Mor, CatFault>
    requires left { (P.category below.now).is_morphism f.now }
    requires right { (P.category below.now).is_morphism g.now }
    requires sources { (P.category below.now).source f.now ≡ (P.category below.now).source g.now }
    requires targets { (P.category below.now).target f.now ≡ (P.category below.now).target g.now }
    ensures { Answers (difference_meets (P.category below.now) (P.scale_meets below.now) (P.add_meets below.now) f.now g.now) (λ x. x ≡ subtract (P.category below.now) f.now g.now) result }
{
    let minus_one = (below.field().prime() - 1) as u16;
    let negative = below.scale(alloc, minus_one, g)?;
    below.add(alloc, f, &negative)
}
