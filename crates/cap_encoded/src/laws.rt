// The laws of data that stand for a category, each a call that does nothing.
ghost use Rattle.cap_alike.specs.Along.{along, read_pairs};
ghost use Rattle.cap_alike.specs.Alike.{Alike, OneToOne};
ghost use Rattle.cap_laws.specs.Linear.{IsLinear};
ghost use Rattle.cap_laws.specs.Universal.{IsAdditive, IsAbelian};
ghost use Rattle.cap_ops.specs.Primitives.{PrimsMean, HasOneOutcome, HasFewObjects};
ghost use Rattle.cap_ops.specs.declared.plans.Kind.{Kind as AnyKind};
ghost use Rattle.cap_ops.specs.Told.{HasPlainEnds};
ghost use Rattle.cap_primitives.specs.Calls.{additive_calls, abelian_calls, abelian_table, closure_calls, closure_table};
ghost use Rattle.cap_primitives.specs.Table.{IsOffer, offer_of};

use crate::Encoding;
use cap_laws::{Abelian, Additive, Lifts, WeakCokernels, WeakKernels};

/// The category of the data is alike the category that they stand for, and an object has one partner.
pub fn law_data_alike<C: Encoding>()
    ensures alike { (c : C) → Alike (along (C.category c) (C.reading c)) (C.category c) (read_pairs (C.category c) (C.reading c)) }
    ensures one_to_one { (c : C) → OneToOne (read_pairs (C.category c) (C.reading c)) }
{}

/// It is linear, its morphisms have the ends that they name, and it is additive or abelian where the category is.
pub fn law_data_structure<C: Encoding>()
    ensures linear { (c : C) → IsLinear (along (C.category c) (C.reading c)) }
    ensures plain_ends { (c : C) → HasPlainEnds (along (C.category c) (C.reading c)) }
    ensures additive { (c : C) → IsAdditive (C.category c) → IsAdditive (along (C.category c) (C.reading c)) }
    ensures abelian { (c : C) → IsAbelian (C.category c) → IsAbelian (along (C.category c) (C.reading c)) }
{}

/// What an abelian category offers is an offer: its primitives' answers mean what their operations ask for and are one, with few new objects.
pub fn law_abelian_offer<C: Encoding + Abelian>()
    ensures { (c : C) (kind : AnyKind) → let calls = abelian_calls (additive_calls (C.category c) (C.identity_meets c) (C.compose_meets c) (C.congruent_meets c)
        (C.zero_meets c) (C.add_meets c) (C.scale_meets c)
        (C.zero_object_of c) (C.sum_of c) (C.zero_object_meets c) (C.direct_sum_meets c))
        (C.kernel_of c) (C.cokernel_of c) (C.lift_of c) (C.colift_of c)
        (C.kernel_meets c) (C.cokernel_meets c) (C.lift_meets c) (C.colift_meets c) in
        IsOffer (offer_of (C.category c) (C.reading c) kind (abelian_table calls)) }
{}

/// And so is what an additive closure offers.
pub fn law_closure_offer<C: Encoding + Additive + Lifts + WeakKernels + WeakCokernels>()
    ensures { (c : C) (kind : AnyKind) → let calls = closure_calls (additive_calls (C.category c) (C.identity_meets c) (C.compose_meets c) (C.congruent_meets c)
        (C.zero_meets c) (C.add_meets c) (C.scale_meets c)
        (C.zero_object_of c) (C.sum_of c) (C.zero_object_meets c) (C.direct_sum_meets c))
        (C.weak_kernel_of c) (C.weak_cokernel_of c) (C.solution_of c)
        (C.weak_kernel_meets c) (C.weak_cokernel_meets c) (C.system_meets c) in
        IsOffer (offer_of (C.category c) (C.reading c) kind (closure_table calls)) }
{}
