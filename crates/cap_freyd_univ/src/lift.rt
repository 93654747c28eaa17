// Lifts, by systems below.
ghost use Rattle.std.specs.Prelude.{◌≡◌, ◌⊎◌, [], ◌∷◌};
ghost use Rattle.cap_laws.specs.Answers.{Answers, Copies, Size};
ghost use Rattle.cap_laws.specs.Systems.{term_of};
ghost use Rattle.cap_freyd_laws.specs.Freyd.{IsFreydMorphism};
ghost use Rattle.cap_freyd_laws.specs.Canonical.{lift_system, lift_of};
ghost use Rattle.cap_freyd_univ.specs.Sizes.{lift_equations_meet};

use crate::equations::{ends, list_of_three, list_of_two, relation_equation, sum_equation};
use crate::solved::first_unknown;
use cap_freyd::FreydMor;
use cap_laws::{Cat, CatFault, Equation, Lifts, Preadditive, System};
use cap_names::Items;
use std::alloc::Global;

/// The unknowns u: x→a, s and w, for the relations x, a and b.
fn lift_unknowns<P: Cat>(
    below: &P,
    alloc: Global,
    x: &P::Mor,
    a: &P::Mor,
    b: &P::Mor,
) -> Result<Items<(P::Obj, P::Obj)>, CatFault>
    requires tested { (P.category below.now).is_morphism x.now }
    requires source { (P.category below.now).is_morphism a.now }
    requires target { (P.category below.now).is_morphism b.now }
    ensures { let K = P.category below.now in Copies ((K.target x.now, K.target a.now) ∷ (K.target x.now, K.source b.now) ∷ (K.source x.now, K.source a.now) ∷ []) result }
{
    let u = ends(below, alloc, below.target(x), below.target(a))?;
    let s = ends(below, alloc, below.target(x), below.source(b))?;
    let w = ends(below, alloc, below.source(x), below.source(a))?;
    list_of_three(alloc, u, s, w)
}

/// u·f + s·b = t.
fn lift_first<P: Preadditive>(
    below: &P,
    alloc: Global,
    t: &FreydMor<P>,
    f: &FreydMor<P>,
) -> Result<Equation<P::Mor>, CatFault>
    requires left { IsFreydMorphism (P.category below.now) t.now.from.relation t.now.to.relation t.now.alpha }
    requires right { IsFreydMorphism (P.category below.now) f.now.from.relation f.now.to.relation f.now.alpha }
    ensures { let K = P.category below.now in let one = K.identity (K.target t.now.from.relation) in Answers (P.identity_meets below.now (K.target t.now.from.relation))
        (λ e. e ≡ record { terms = term_of one 0 f.now.alpha ∷ term_of one 1 f.now.to.relation ∷ []; value = t.now.alpha }) result }
{
    let value = below.copy_morphism(alloc, &t.alpha)?;
    let end = below.target(&t.from.relation);
    sum_equation(below, alloc, end, &f.alpha, &f.to.relation, value)
}

/// The system of a lift of t along f.
fn lift_system_of<P: Preadditive>(
    below: &P,
    alloc: Global,
    t: &FreydMor<P>,
    f: &FreydMor<P>,
) -> Result<System<P::Obj, P::Mor>, CatFault>
    requires left { IsFreydMorphism (P.category below.now) t.now.from.relation t.now.to.relation t.now.alpha }
    requires right { IsFreydMorphism (P.category below.now) f.now.from.relation f.now.to.relation f.now.alpha }
    ensures { let K = P.category below.now in Answers (lift_equations_meet K (P.identity_meets below.now) (P.scale_meets below.now) (P.zero_meets below.now) t.now f.now)
        (λ y. y ≡ lift_system K t.now.from.relation f.now.from.relation f.now.to.relation t.now.alpha f.now.alpha) result }
{
    let x = &t.from.relation;
    let a = &f.from.relation;
    let unknowns = lift_unknowns(below, alloc, x, a, &f.to.relation)?;
    let first = lift_first(below, alloc, t, f)?;
    let second = relation_equation(below, alloc, x, a)?;
    let equations = list_of_two(alloc, first, second)?;
    Ok(System {
        unknowns,
        equations,
    })
}

/// The lift of t along f.
pub(crate) fn freyd_lift<P: Lifts>(
    below: &P,
    alloc: Global,
    t: &FreydMor<P>,
    f: &FreydMor<P>,
) -> Result<Option<FreydMor<P>>, CatFault>
    requires left { IsFreydMorphism (P.category below.now) t.now.from.relation t.now.to.relation t.now.alpha }
    requires right { IsFreydMorphism (P.category below.now) f.now.from.relation f.now.to.relation f.now.alpha }
    requires targets { t.now.to ≡ f.now.to }
    ensures { let K = P.category below.now in Answers (λ s. lift_equations_meet K (P.identity_meets below.now) (P.scale_meets below.now) (P.zero_meets below.now) t.now f.now s
        ⊎ P.system_meets below.now (lift_system K t.now.from.relation f.now.from.relation f.now.to.relation t.now.alpha f.now.alpha) s)
        (λ y. y ≡ lift_of K (P.solution_of below.now) t.now f.now) result }
{
    let system = lift_system_of(below, alloc, t, f)?;
    first_unknown(below, alloc, &system, &t.from, &f.from)
}
