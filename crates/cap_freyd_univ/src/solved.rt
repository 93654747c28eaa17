// The morphism that the first unknown of a solved system is.
ghost use Rattle.std.specs.Prelude.{◌≡◌, ◌<◌, length, get_or};
ghost use Rattle.cap_laws.specs.Answers.{Answers};
ghost use Rattle.cap_laws.specs.Systems.{IsSystem, first_of};
ghost use Rattle.cap_freyd_laws.specs.Canonical.{between as between_of};

use cap_freyd::{FreydMor, FreydObj, between};
use cap_laws::{CatFault, Lifts, System};
use cap_names::Items;
use std::alloc::Global;

/// The first of these values.
fn first_value<T: Drop>(values: Items<T>) -> T
    requires { 0 < length values }
    ensures { (d : T) → result ≡ get_or values 0 d }
{
    let mut values = values.into_vec();
    values.swap_remove(0)
}

/// The first unknown of a solution, as a morphism between copies of these objects; `None` where there is no solution.
pub(crate) fn first_unknown<P: Lifts>(
    below: &P,
    alloc: Global,
    system: &System<P::Obj, P::Mor>,
    from: &FreydObj<P>,
    to: &FreydObj<P>,
) -> Result<Option<FreydMor<P>>, CatFault>
    requires system { IsSystem (P.category below.now) system.now }
    requires unknowns { 0 < length system.now.unknowns }
    requires left { (P.category below.now).is_morphism from.now.relation }
    requires right { (P.category below.now).is_morphism to.now.relation }
    ensures { Answers (P.system_meets below.now system.now) (λ y. (d : P.Mor) → y ≡ between_of from.now to.now (first_of d (P.solution_of below.now system.now))) result }
{
    let solution = below.solve_system(alloc, system)?;
    let Some(values) = solution else {
        return Ok(None);
    };
    let alpha = first_value(values);
    let morphism = between(below, alloc, from, to, alpha)?;
    Ok(Some(morphism))
}
