// Colifts, by systems below.
ghost use Rattle.std.specs.Prelude.{◌≡◌, ◌⊎◌, [], ◌∷◌};
ghost use Rattle.cap_laws.specs.Answers.{Answers, Copies, Size};
ghost use Rattle.cap_laws.specs.Systems.{term_of};
ghost use Rattle.cap_laws.specs.Universal.{negate};
ghost use Rattle.cap_freyd_laws.specs.Freyd.{IsFreydMorphism};
ghost use Rattle.cap_freyd_laws.specs.Canonical.{colift_system, colift_of};
ghost use Rattle.cap_freyd_univ.specs.Sizes.{factors_meet, colift_equations_meet};

use crate::equations::{difference_equation, ends, list_of_three, list_of_two, relation_equation};
use crate::solved::first_unknown;
use cap_freyd::FreydMor;
use cap_laws::{Cat, CatFault, Equation, Lifts, Preadditive, System};
use cap_names::Items;
use std::alloc::Global;

/// The unknowns u: a→x, s and w, for the relations c, a and x.
fn colift_unknowns<P: Cat>(
    below: &P,
    alloc: Global,
    c: &P::Mor,
    a: &P::Mor,
    x: &P::Mor,
) -> Result<Items<(P::Obj, P::Obj)>, CatFault>
    requires source { (P.category below.now).is_morphism c.now }
    requires target { (P.category below.now).is_morphism a.now }
    requires tested { (P.category below.now).is_morphism x.now }
    ensures { let K = P.category below.now in Copies ((K.target a.now, K.target x.now) ∷ (K.target c.now, K.source x.now) ∷ (K.source a.now, K.source x.now) ∷ []) result }
{
    let u = ends(below, alloc, below.target(a), below.target(x))?;
    let s = ends(below, alloc, below.target(c), below.source(x))?;
    let w = ends(below, alloc, below.source(a), below.source(x))?;
    list_of_three(alloc, u, s, w)
}

/// f·u − s·x = t.
fn colift_first<P: Preadditive>(
    below: &P,
    alloc: Global,
    f: &FreydMor<P>,
    t: &FreydMor<P>,
) -> Result<Equation<P::Mor>, CatFault>
    requires left { IsFreydMorphism (P.category below.now) f.now.from.relation f.now.to.relation f.now.alpha }
    requires right { IsFreydMorphism (P.category below.now) t.now.from.relation t.now.to.relation t.now.alpha }
    ensures { let K = P.category below.now in let y = K.target t.now.to.relation in let p = K.target f.now.from.relation in Answers (factors_meet K (P.identity_meets below.now) (P.scale_meets below.now) y p)
        (λ e. e ≡ record { terms = term_of f.now.alpha 0 (K.identity y) ∷ term_of (negate K (K.identity p)) 1 t.now.to.relation ∷ []; value = t.now.alpha }) result }
{
    let value = below.copy_morphism(alloc, &t.alpha)?;
    let x = &t.to.relation;
    let start = below.target(&f.from.relation);
    difference_equation(below, alloc, &f.alpha, below.target(x), start, 1, x, value)
}

/// The system of a colift of t along f.
fn colift_system_of<P: Preadditive>(
    below: &P,
    alloc: Global,
    f: &FreydMor<P>,
    t: &FreydMor<P>,
) -> Result<System<P::Obj, P::Mor>, CatFault>
    requires left { IsFreydMorphism (P.category below.now) f.now.from.relation f.now.to.relation f.now.alpha }
    requires right { IsFreydMorphism (P.category below.now) t.now.from.relation t.now.to.relation t.now.alpha }
    ensures { let K = P.category below.now in Answers (colift_equations_meet K (P.identity_meets below.now) (P.scale_meets below.now) (P.zero_meets below.now) f.now t.now)
        (λ y. y ≡ colift_system K f.now.from.relation f.now.to.relation t.now.to.relation f.now.alpha t.now.alpha) result }
{
    let a = &f.to.relation;
    let x = &t.to.relation;
    let unknowns = colift_unknowns(below, alloc, &f.from.relation, a, x)?;
    let first = colift_first(below, alloc, f, t)?;
    let second = relation_equation(below, alloc, a, x)?;
    let equations = list_of_two(alloc, first, second)?;
    Ok(System {
        unknowns,
        equations,
    })
}

/// The colift of t along f.
pub(crate) fn freyd_colift<P: Lifts>(
    below: &P,
    alloc: Global,
    f: &FreydMor<P>,
    t: &FreydMor<P>,
) -> Result<Option<FreydMor<P>>, CatFault>
    requires left { IsFreydMorphism (P.category below.now) f.now.from.relation f.now.to.relation f.now.alpha }
    requires right { IsFreydMorphism (P.category below.now) t.now.from.relation t.now.to.relation t.now.alpha }
    requires sources { f.now.from ≡ t.now.from }
    ensures { let K = P.category below.now in Answers (λ s. colift_equations_meet K (P.identity_meets below.now) (P.scale_meets below.now) (P.zero_meets below.now) f.now t.now s
        ⊎ P.system_meets below.now (colift_system K f.now.from.relation f.now.to.relation t.now.to.relation f.now.alpha t.now.alpha) s)
        (λ y. y ≡ colift_of K (P.solution_of below.now) f.now t.now) result }
{
    let system = colift_system_of(below, alloc, f, t)?;
    first_unknown(below, alloc, &system, &f.to, &t.to)
}
