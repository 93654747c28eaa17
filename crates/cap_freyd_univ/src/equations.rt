// Equations of two terms, and systems of two of them in three unknowns.
ghost use Rattle.std.specs.Prelude.{◌≡◌, ◌⊎◌, [], ◌∷◌};
ghost use Rattle.cap_laws.specs.Answers.{Answers, Copies, Size};
ghost use Rattle.cap_laws.specs.Systems.{term_of};
ghost use Rattle.cap_laws.specs.Universal.{negate};
ghost use Rattle.cap_freyd_univ.specs.Sizes.{factors_meet};

use cap_freyd::minus_identity;
use cap_laws::{Cat, CatFault, Equation, Preadditive, Term};
use cap_names::Items;
use std::alloc::Global;

/// The list of two values.
pub(crate) fn list_of_two<T: Drop>(alloc: Global, x: T, y: T) -> Result<Items<T>, CatFault>
    ensures { Copies (x ∷ y ∷ []) result }
{
    let mut list = Vec::new(alloc);
    list.push(x)?;
    list.push(y)?;
    Ok(Items::new(list))
}

/// The list of three values.
pub(crate) fn list_of_three<T: Drop>(alloc: Global, x: T, y: T, z: T) -> Result<Items<T>, CatFault>
    ensures { Copies (x ∷ y ∷ z ∷ []) result }
{
    let mut list = Vec::new(alloc);
    list.push(x)?;
    list.push(y)?;
    list.push(z)?;
    Ok(Items::new(list))
}

/// Copies of the ends of an unknown.
pub(crate) fn ends<P: Cat>(
    below: &P,
    alloc: Global,
    x: &P::Obj,
    y: &P::Obj,
) -> Result<(P::Obj, P::Obj), CatFault>
    requires from { (P.category below.now).is_object x.now }
    requires to { (P.category below.now).is_object y.now }
    ensures { Copies (x.now, y.now) result }
{
    let from = below.copy_object(alloc, x)?;
    let to = below.copy_object(alloc, y)?;
    Ok((from, to))
}

/// u·f + s·b = t, where u and s go out of `end`; the unknowns are the first and the second.
pub(crate) fn sum_equation<P: Cat>(
    below: &P,
    alloc: Global,
    end: &P::Obj,
    f: &P::Mor,
    b: &P::Mor,
    value: P::Mor,
) -> Result<Equation<P::Mor>, CatFault>
    requires end { (P.category below.now).is_object end.now }
    requires along { (P.category below.now).is_morphism f.now }
    requires target { (P.category below.now).is_morphism b.now }
    ensures { let K = P.category below.now in Answers (P.identity_meets below.now end.now)
        (λ e. e ≡ record { terms = term_of (K.identity end.now) 0 f.now ∷ term_of (K.identity end.now) 1 b.now ∷ []; value = value }) result }
{
    let left = below.identity(alloc, end)?;
    let right = below.copy_morphism(alloc, f)?;
    let first = Term {
        left,
        unknown: 0,
        right,
    };
    let left = below.identity(alloc, end)?;
    let right = below.copy_morphism(alloc, b)?;
    let second = Term {
        left,
        unknown: 1,
        right,
    };
    let terms = list_of_two(alloc, first, second)?;
    Ok(Equation { terms, value })
}

/// l·u·1 − 1·w·r = v, with 1 at y and −1 at p; u is the first unknown, w the one of this number.
pub(crate) fn difference_equation<P: Preadditive>(
    below: &P,
    alloc: Global,
    l: &P::Mor,
    y: &P::Obj,
    p: &P::Obj,
    unknown: u32,
    r: &P::Mor,
    value: P::Mor,
) -> Result<Equation<P::Mor>, CatFault>
    requires left { (P.category below.now).is_morphism l.now }
    requires one { (P.category below.now).is_object y.now }
    requires minus { (P.category below.now).is_object p.now }
    requires right { (P.category below.now).is_morphism r.now }
    ensures { let K = P.category below.now in Answers (factors_meet K (P.identity_meets below.now) (P.scale_meets below.now) y.now p.now)
        (λ e. e ≡ record { terms = term_of l.now 0 (K.identity y.now) ∷ term_of (negate K (K.identity p.now)) unknown r.now ∷ []; value = value }) result }
{
    let left = below.copy_morphism(alloc, l)?;
    let right = below.identity(alloc, y)?;
    let first = Term {
        left,
        unknown: 0,
        right,
    };
    let left = minus_identity(below, alloc, p)?;
    let right = below.copy_morphism(alloc, r)?;
    let second = Term {
        left,
        unknown,
        right,
    };
    let terms = list_of_two(alloc, first, second)?;
    Ok(Equation { terms, value })
}

/// x·u − w·a = 0: u sends the relations x into the relations a. The unknowns are the first and the third.
pub(crate) fn relation_equation<P: Preadditive>(
    below: &P,
    alloc: Global,
    x: &P::Mor,
    a: &P::Mor,
) -> Result<Equation<P::Mor>, CatFault>
    requires tested { (P.category below.now).is_morphism x.now }
    requires source { (P.category below.now).is_morphism a.now }
    ensures { let K = P.category below.now in Answers (λ s. P.zero_meets below.now (K.source x.now) (K.target a.now) s ⊎ factors_meet K (P.identity_meets below.now) (P.scale_meets below.now) (K.target a.now) (K.source x.now) s)
        (λ e. e ≡ record { terms = term_of x.now 0 (K.identity (K.target a.now)) ∷ term_of (negate K (K.identity (K.source x.now))) 2 a.now ∷ []; value = K.zero (K.source x.now) (K.target a.now) }) result }
{
    let start = below.source(x);
    let end = below.target(a);
    let zero = below.zero(alloc, start, end)?;
    difference_equation(below, alloc, x, end, start, 2, a, zero)
}
