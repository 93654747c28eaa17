// Direct sums, products and coproducts.
ghost use Rattle.cap_abstract.specs.Biproducts.{ProductFromDirectSum, DirectSumFromProduct, PairByLift, LiftByPair};
ghost use Rattle.cap_laws.specs.Universal.{opposite};

use cap_laws::Preadditive;

/// The projections of a direct sum are a product; dually, its embeddings are a coproduct.
pub fn law_product_from_direct_sum<C: Preadditive>()
    ensures law { (c : C) → ProductFromDirectSum (C.category c) }
    ensures dual { (c : C) → ProductFromDirectSum (opposite (C.category c)) }
{}

/// A product with the pairs of identities and zeros is a direct sum; dually, a coproduct.
pub fn law_direct_sum_from_product<C: Preadditive>()
    ensures law { (c : C) → DirectSumFromProduct (C.category c) }
    ensures dual { (c : C) → DirectSumFromProduct (opposite (C.category c)) }
{}

/// A pair is a lift between morphisms into a direct sum; dually, a copair is a colift.
pub fn law_pair_by_lift<C: Preadditive>()
    ensures law { (c : C) → PairByLift (C.category c) }
    ensures dual { (c : C) → PairByLift (opposite (C.category c)) }
{}

/// A lift along f is a pair along f and f; dually, a colift is a copair.
pub fn law_lift_by_pair<C: Preadditive>()
    ensures law { (c : C) → LiftByPair (C.category c) }
    ensures dual { (c : C) → LiftByPair (opposite (C.category c)) }
{}
