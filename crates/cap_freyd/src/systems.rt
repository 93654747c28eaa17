// Systems in one unknown, and morphisms between copies of given objects.
ghost use Rattle.std.specs.Prelude.{◌≡◌, ◌⊎◌, ◌-◌, [], ◌∷◌};
ghost use Rattle.cap_laws.specs.Answers.{Answers, Copies, Size};
ghost use Rattle.cap_laws.specs.Systems.{one_system};
ghost use Rattle.cap_laws.specs.Universal.{negate};

use crate::category::{FreydMor, FreydObj};
use cap_freyd_laws::{Presentation, PresentationMor};
use cap_laws::{Cat, CatFault, Equation, Preadditive, System, Term};
use cap_names::Items;
use std::alloc::Global;

/// The morphism between copies of these objects; nothing but memory can be wanting.
pub fn between<P: Cat>(
    below: &P,
    alloc: Global,
    from: &FreydObj<P>,
    to: &FreydObj<P>,
    alpha: P::Mor,
) -> Result<FreydMor<P>, CatFault>
    requires left { (P.category below.now).is_morphism from.now.relation }
    requires right { (P.category below.now).is_morphism to.now.relation }
    ensures { Copies (record { from = from.now; to = to.now; alpha = alpha }) result }
{
    let source = below.copy_morphism(alloc, &from.relation)?;
    let target = below.copy_morphism(alloc, &to.relation)?;
    Ok(PresentationMor {
        from: Presentation { relation: source },
        to: Presentation { relation: target },
        alpha,
    })
}

/// −1 at x.
pub fn minus_identity<P: Preadditive>(
    below: &P,
    alloc: Global,
    x: &P::Obj,
) -> Result<P::Mor, CatFault>
    requires { (P.category below.now).is_object x.now }
    ensures { let K = P.category below.now in Answers (λ s. P.identity_meets below.now x.now s ⊎ P.scale_meets below.now (K.prime - 1) (K.identity x.now) s) (λ e. e ≡ negate K (K.identity x.now)) result }
{
    let minus_one = (below.field().prime() - 1) as u16;
    let one = below.identity(alloc, x)?;
    below.scale(alloc, minus_one, &one)
}

/// The list of one value.
fn list_of_one<T: Drop>(alloc: Global, x: T) -> Result<Items<T>, CatFault>
    ensures { Copies (x ∷ []) result }
{
    let mut list = Vec::new(alloc);
    list.push(x)?;
    Ok(Items::new(list))
}

/// The system X·r = v with one unknown X: x→y.
pub(crate) fn one_equation<P: Preadditive>(
    below: &P,
    alloc: Global,
    x: &P::Obj,
    y: &P::Obj,
    r: &P::Mor,
    v: P::Mor,
) -> Result<System<P::Obj, P::Mor>, CatFault>
    requires from { (P.category below.now).is_object x.now }
    requires to { (P.category below.now).is_object y.now }
    requires right { (P.category below.now).is_morphism r.now }
    ensures { Answers (P.identity_meets below.now x.now) (λ e. e ≡ one_system (P.category below.now) x.now y.now r.now v) result }
{
    let from = below.copy_object(alloc, x)?;
    let to = below.copy_object(alloc, y)?;
    let left = below.identity(alloc, x)?;
    let right = below.copy_morphism(alloc, r)?;
    let term = Term {
        left,
        unknown: 0,
        right,
    };
    let unknowns = list_of_one(alloc, (from, to))?;
    let terms = list_of_one(alloc, term)?;
    let equations = list_of_one(alloc, Equation { terms, value: v })?;
    Ok(System {
        unknowns,
        equations,
    })
}
