// Kernels by weak preimages, and cokernels by blocks.
ghost use Rattle.std.specs.Prelude.{◌≡◌, ◌⊎◌};
ghost use Rattle.cap_laws.specs.Answers.{Answers, Size};
ghost use Rattle.cap_freyd_laws.specs.Freyd.{IsFreydMorphism};
ghost use Rattle.cap_freyd_laws.specs.Canonical.{stack, preimage, kernel_of, cokernel_of};
ghost use Rattle.cap_freyd_univ.specs.Sizes.{stack_meets, preimage_meets, kernel_meets, cokernel_meets};

use cap_freyd::{FreydMor, rows_of};
use cap_freyd_laws::{Presentation, PresentationMor};
use cap_laws::{Additive, CatFault, WeakKernels};
use std::alloc::Global;

/// The weak kernel of f above g, cut after the source of f: a weak preimage of g along f.
pub(crate) fn preimage_of<P: Additive + WeakKernels>(
    below: &P,
    alloc: Global,
    f: &P::Mor,
    g: &P::Mor,
) -> Result<P::Mor, CatFault>
    requires left { (P.category below.now).is_morphism f.now }
    requires right { (P.category below.now).is_morphism g.now }
    requires targets { (P.category below.now).target f.now ≡ (P.category below.now).target g.now }
    ensures { Answers (preimage_meets (P.category below.now) (P.sum_of below.now) (P.weak_kernel_of below.now) (P.direct_sum_meets below.now) (P.compose_meets below.now) (P.add_meets below.now) (P.weak_kernel_meets below.now) f.now g.now) (λ x. x ≡ preimage (P.category below.now) (P.sum_of below.now) (P.weak_kernel_of below.now) f.now g.now) result }
{
    let d = below.direct_sum(alloc, below.source(f), below.source(g))?;
    let s = rows_of(below, alloc, &d.p1, &d.p2, f, g)?;
    let w = below.weak_kernel(alloc, &s)?;
    below.compose(alloc, &w, &d.p1)
}

/// The embedding of the kernel of f.
pub(crate) fn freyd_kernel<P: Additive + WeakKernels>(
    below: &P,
    alloc: Global,
    f: &FreydMor<P>,
) -> Result<FreydMor<P>, CatFault>
    requires test { IsFreydMorphism (P.category below.now) f.now.from.relation f.now.to.relation f.now.alpha }
    ensures { Answers (kernel_meets (P.category below.now) (P.sum_of below.now) (P.weak_kernel_of below.now) (P.direct_sum_meets below.now) (P.compose_meets below.now) (P.add_meets below.now) (P.weak_kernel_meets below.now) f.now) (λ x. x ≡ kernel_of (P.category below.now) (P.sum_of below.now) (P.weak_kernel_of below.now) f.now) result }
{
    let embedding = preimage_of(below, alloc, &f.alpha, &f.to.relation)?;
    let relation = preimage_of(below, alloc, &embedding, &f.from.relation)?;
    let target = below.copy_morphism(alloc, &f.from.relation)?;
    Ok(PresentationMor {
        from: Presentation { relation },
        to: Presentation { relation: target },
        alpha: embedding,
    })
}

/// The projection onto the cokernel of f.
pub(crate) fn freyd_cokernel<P: Additive>(
    below: &P,
    alloc: Global,
    f: &FreydMor<P>,
) -> Result<FreydMor<P>, CatFault>
    requires test { IsFreydMorphism (P.category below.now) f.now.from.relation f.now.to.relation f.now.alpha }
    ensures { Answers (cokernel_meets (P.category below.now) (P.sum_of below.now) (P.direct_sum_meets below.now) (P.compose_meets below.now) (P.add_meets below.now) (P.identity_meets below.now) f.now) (λ x. x ≡ cokernel_of (P.category below.now) (P.sum_of below.now) f.now) result }
{
    let d = below.direct_sum(alloc, below.source(&f.to.relation), below.source(&f.alpha))?;
    let relation = rows_of(below, alloc, &d.p1, &d.p2, &f.to.relation, &f.alpha)?;
    let alpha = below.identity(alloc, below.target(&f.to.relation))?;
    let source = below.copy_morphism(alloc, &f.to.relation)?;
    Ok(PresentationMor {
        from: Presentation { relation: source },
        to: Presentation { relation },
        alpha,
    })
}
