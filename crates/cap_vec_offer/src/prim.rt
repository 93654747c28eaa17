// The primitives of matrices by number.
ghost use Rattle.std.specs.Prelude.{IsSome};
ghost use Rattle.cap_ops.specs.declared.plans.Kind.TheVariants.{Mat};
ghost use Rattle.cap_ops.specs.Arrows.{over, arguments};
ghost use Rattle.cap_ops.specs.Offered.{offered_weight};
ghost use Rattle.cap_ops.specs.Primitives.{PrimGives};
ghost use Rattle.cap_ops.specs.Told.{Known};
ghost use Rattle.cap_ops.specs.Values.{Fits};
ghost use Rattle.cap_vec_offer.specs.Offer.{vec_offer};

use cap_data::{MorData, ObjData};
use cap_encoded::{
    add, cokernel, colift, compose, direct_sum, identity, is_congruent, kernel, lift, pullback,
    pushout, scale, zero, zero_object,
};
use cap_laws::CatFault;
use cap_names::OpId;
use cap_ops::{Arg, Objects, PrimOut};
use cap_vec::VecCat;
use std::alloc::Global;

/// The answer of a primitive of matrices, with its new objects; or the size of a matrix past the limits.
pub(crate) fn matrix_prim<B: Objects<ObjData>>(
    alloc: Global,
    cat: &VecCat,
    op: OpId,
    args: &[Arg<MorData>],
    objects: &B,
) -> Result<PrimOut<ObjData, MorData>, CatFault>
    requires is_offered { IsSome (offered_weight Mat op.0) }
    requires fits { Fits (over cat.now.field) op.0 (arguments args.now) }
    requires known { Known (vec_offer cat.now.field cat.now.tabled).category (B.told objects.now) (arguments args.now) }
    ensures { PrimGives (vec_offer cat.now.field cat.now.tabled) (B.told objects.now) op.0 args.now result }
{
    match op.0 {
        1 => identity(alloc, cat, args, objects),
        2 => compose(alloc, cat, args, objects),
        3 => zero(alloc, cat, args, objects),
        4 => add(alloc, cat, args, objects),
        7 => scale(alloc, cat, args, objects),
        8 => is_congruent(alloc, cat, args, objects),
        10 => zero_object(alloc, cat, args, objects),
        11 => direct_sum(alloc, cat, args, objects),
        16 => kernel(alloc, cat, args, objects),
        18 => cokernel(alloc, cat, args, objects),
        22 => lift(alloc, cat, args, objects),
        23 => colift(alloc, cat, args, objects),
        34 => pullback(alloc, cat, args, objects),
        35 => pushout(alloc, cat, args, objects),
        _ => unreachable!(),
    }
}
