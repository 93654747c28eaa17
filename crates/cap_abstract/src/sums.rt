// Sums and differences.
ghost use Rattle.cap_abstract.specs.Additions.{NegateBySubtract, AddBySubtract, CongruentBySubtract, IdentityFromDirectSum, ZeroFromDirectSum};

use cap_laws::Preadditive;

/// The negative of f is 0 − f.
pub fn law_negate_by_subtract<C: Preadditive>()
    ensures { (c : C) → NegateBySubtract (C.category c) }
{}

/// The sum f + g is f − (−g).
pub fn law_add_by_subtract<C: Preadditive>()
    ensures { (c : C) → AddBySubtract (C.category c) }
{}

/// f and g are congruent exactly where f − g is 0.
pub fn law_congruent_by_subtract<C: Preadditive>()
    ensures { (c : C) → CongruentBySubtract (C.category c) }
{}

/// The first summand into a direct sum and back is the identity.
pub fn law_identity_from_direct_sum<C: Preadditive>()
    ensures { (c : C) → IdentityFromDirectSum (C.category c) }
{}

/// The first summand into a direct sum and out to the second is 0.
pub fn law_zero_from_direct_sum<C: Preadditive>()
    ensures { (c : C) → ZeroFromDirectSum (C.category c) }
{}
