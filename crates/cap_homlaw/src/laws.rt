// Laws of homomorphism structures. These functions run nothing: a caller learns the law from the contract.
ghost use Rattle.cap_laws.specs.Universal.{opposite};
ghost use Rattle.cap_homlaw.specs.Hom.{IsHom, BackIsLinear, TwoSidedProducts, opposite_hom};

use crate::HomFp;

/// nu(l·g·r) = nu(g)·h(l, r).
pub fn law_two_sided_products<C: HomFp>()
    ensures { (c : C) → TwoSidedProducts (C.category c) (C.hom c) }
{}

/// The morphism of a row is linear in the row, and `back` undoes `nu`.
pub fn law_back_is_linear<C: HomFp>()
    ensures { (c : C) → BackIsLinear (C.category c) (C.hom c) }
{}

/// The same rows are a homomorphism structure of the opposite category.
pub fn law_opposite_has_hom<C: HomFp>()
    ensures { (c : C) → IsHom (opposite (C.category c)) (opposite_hom (C.hom c)) }
{}
