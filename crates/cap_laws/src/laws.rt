// Laws of the calculus of congruent morphisms, in every category. These functions run nothing: a caller learns the law from the contract.
// Each also holds in the opposite category, so its dual is the law at `opposite_is_linear`.
ghost use Rattle.cap_laws.specs.Linear.{IsLinear};
ghost use Rattle.cap_laws.specs.Universal.{opposite, IsAbelian};
ghost use Rattle.cap_laws.specs.Table.{BasisProducts};
ghost use Rattle.cap_laws.specs.Statements.{CongruenceCalculus, DifferenceIsZero, ZeroComposes, Negation, DifferencesCompose, MonoCancels, KernelIsMono, KernelsIsomorphic, FactoringIdeal, WeakPreimage, SplitsGiveHalves, FactoringBySystem};

use crate::{Abelian, Cat, Table};

/// Congruent morphisms may be put for one another in composites, sums and multiples.
pub fn law_congruence_calculus<C: Cat>()
    ensures { (c : C) → CongruenceCalculus (C.category c) }
{}

/// f − g is congruent to zero exactly where f and g are congruent.
pub fn law_difference_is_zero<C: Cat>()
    ensures { (c : C) → DifferenceIsZero (C.category c) }
{}

/// Zero composes to zero on both sides.
pub fn law_zero_composes<C: Cat>()
    ensures { (c : C) → ZeroComposes (C.category c) }
{}

/// −f adds up with f to zero, and negation passes through composites.
pub fn law_negation<C: Cat>()
    ensures { (c : C) → Negation (C.category c) }
{}

/// Composition distributes over differences.
pub fn law_differences_compose<C: Cat>()
    ensures { (c : C) → DifferencesCompose (C.category c) }
{}

/// A morphism is mono exactly where it can be cancelled on the right.
pub fn law_mono_cancels<C: Cat>()
    ensures { (c : C) → MonoCancels (C.category c) }
{}

/// A kernel is mono.
pub fn law_kernel_is_mono<C: Cat>()
    ensures { (c : C) → KernelIsMono (C.category c) }
{}

/// Two kernels of one morphism are isomorphic over its source.
pub fn law_kernels_are_isomorphic<C: Cat>()
    ensures { (c : C) → KernelsIsomorphic (C.category c) }
{}

/// What factors through a morphism is an ideal.
pub fn law_factoring_is_an_ideal<C: Cat>()
    ensures { (c : C) → FactoringIdeal (C.category c) }
{}

/// A weak kernel of one morphism above another, cut, is a weak preimage.
pub fn law_weak_kernel_is_a_preimage<C: Cat>()
    ensures { (c : C) → WeakPreimage (C.category c) }
{}

/// Where every morphism splits over a middle object, kernels and cokernels exist, and monos and epis are such.
pub fn law_splits_give_kernels<C: Cat>()
    ensures { (c : C) → SplitsGiveHalves (C.category c) }
{}

/// A morphism factors through another exactly where a system in one unknown has a solution, and the answer of such a system is that of a lift or a colift.
pub fn law_factoring_by_a_system<C: Cat>()
    ensures { (c : C) → FactoringBySystem (C.category c) }
{}

/// The opposite of a linear category is one.
pub fn law_opposite_is_linear<C: Cat>()
    ensures { (c : C) → IsLinear (opposite (C.category c)) }
{}

/// The opposite of an abelian category is one.
pub fn law_opposite_is_abelian<C: Abelian>()
    ensures { (c : C) → IsAbelian (opposite (C.category c)) }
{}

/// In the category of a table's combinations the composite of two basis elements is the product that the table tells.
pub fn law_basis_products<T: Table>()
    ensures { (t : T) → BasisProducts (T.table t) }
{}
