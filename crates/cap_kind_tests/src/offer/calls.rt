// Calls of primitives, and what their answers are.
ghost use Rattle.std.specs.Prelude.{◌≡◌, ◌∷◌, [], IsTrue};
ghost use Rattle.cap_ops.specs.declared.sorts.Sort.TheVariants.{Obj, Mor};
ghost use Rattle.cap_ops.specs.Ends.{IsOperation, operation_arguments};
ghost use Rattle.cap_ops.specs.Mismatches.{HaveSorts};

use super::rooms::{Given, Room, known_arguments};
use cap_data::{MorData, ObjData};
use cap_laws::CatFault;
use cap_names::OpId;
use cap_ops::{Arg, Datum, End, Offer, Out, OutArrow, PrimOut, ends_fit};
use std::process::Abort;

/// A part of an answer: its ends, where numbers from 100 on are those of new objects, and its cells row after row.
pub type Part<'a> = (u32, u32, &'a [u16]);

/// Whether a primitive takes a morphism.
fn takes_arrow(op: OpId) -> bool
    ensures { IsTrue result → IsOperation op.0 × (operation_arguments op.0 ≡ Mor ∷ []) }
{
    match op.0 {
        16 => true,
        18 => true,
        _ => false,
    }
}

/// Whether a primitive takes two objects.
fn takes_objects(op: OpId) -> bool
    ensures { IsTrue result → IsOperation op.0 × (operation_arguments op.0 ≡ Obj ∷ Obj ∷ []) }
{
    match op.0 {
        3 => true,
        11 => true,
        _ => false,
    }
}

/// Whether a primitive takes two morphisms.
fn takes_arrows(op: OpId) -> bool
    ensures { IsTrue result → IsOperation op.0 × (operation_arguments op.0 ≡ Mor ∷ Mor ∷ []) }
{
    match op.0 {
        2 => true,
        4 => true,
        8 => true,
        22 => true,
        23 => true,
        34 => true,
        35 => true,
        _ => false,
    }
}

/// Whether the arguments have the sorts of a primitive of matrices.
fn have_sorts(op: OpId, args: &[Arg<MorData>]) -> bool
    ensures { IsTrue result → HaveSorts op.0 args.now }
{
    match args {
        [] => op.0 == 10,
        [Arg::Obj(_)] => op.0 == 1,
        [Arg::Mor(_)] => takes_arrow(op),
        [Arg::Obj(_), Arg::Obj(_)] => takes_objects(op),
        [Arg::Num(_), Arg::Mor(_)] => op.0 == 7,
        [Arg::Mor(_), Arg::Mor(_)] => takes_arrows(op),
        _ => false,
    }
}

/// What a primitive answers.
pub fn answer(
    rt: &impl Abort,
    room: &Room,
    op: OpId,
    givens: &[Given],
) -> Result<PrimOut<ObjData, MorData>, CatFault> {
    let alloc = room.alloc;
    let args = known_arguments(rt, alloc, room, givens);
    let args = args.as_slice();
    if room.cat.offers(op).is_none() {
        panic!(rt; "the primitive is offered");
    }
    assert!(rt; have_sorts(op, args), "the arguments have the sorts");
    assert!(rt; ends_fit(op, args).is_ok(), "the ends fit");
    room.cat.prim(alloc, op, args, room)
}

fn is_end(end: End, number: u32) -> bool {
    match end {
        End::Old(h) => h.0 == number,
        End::New(k) => number >= 100 && k == number - 100,
    }
}

fn assert_is(rt: &impl Abort, arrow: &OutArrow<MorData>, part: &Part) {
    assert!(rt; is_end(arrow.src, part.0), "the source");
    assert!(rt; is_end(arrow.tgt, part.1), "the target");
    match &arrow.value {
        MorData::Mat(m) => assert!(rt; m.cells() == part.2, "the cells"),
        _ => panic!(rt; "a morphism is a matrix"),
    }
}

fn assert_are(rt: &impl Abort, arrows: &[OutArrow<MorData>], parts: &[Part]) {
    assert_eq!(rt; arrows.len(), parts.len());
    for (arrow, part) in arrows.iter().zip(parts) {
        assert_is(rt, arrow, part);
    }
}

/// The primitive answers these parts, with new objects of these dimensions.
pub fn assert_gives(
    rt: &impl Abort,
    room: &Room,
    op: OpId,
    givens: &[Given],
    dims: &[u32],
    parts: &[Part],
) {
    let given = answer(rt, room, op, givens).expect(rt, "an answer");
    let fresh = given.fresh.as_slice();
    assert_eq!(rt; fresh.len(), dims.len());
    for (object, n) in fresh.iter().zip(dims) {
        assert!(rt; object.same(&ObjData::Dim(*n)), "a new object");
    }
    match &given.out {
        Out::One(arrow) => match parts {
            [part] => assert_is(rt, arrow, part),
            _ => panic!(rt; "one morphism"),
        },
        Out::Many(arrows) => assert_are(rt, arrows.as_slice(), parts),
        Out::Truth(_) => panic!(rt; "morphisms"),
        Out::Nothing => assert!(rt; parts.is_empty(), "none"),
    }
}

/// Whether two morphisms are congruent.
pub fn congruent(rt: &impl Abort, room: &Room, givens: &[Given]) -> bool {
    let given = answer(rt, room, OpId(8), givens).expect(rt, "an answer");
    match given.out {
        Out::Truth(b) => b,
        _ => panic!(rt; "a truth"),
    }
}

/// The size past the limits that the primitive meets.
pub fn assert_too_large(
    rt: &impl Abort,
    room: &Room,
    op: OpId,
    givens: &[Given],
    size: (u32, u32),
) {
    match answer(rt, room, op, givens) {
        Err(CatFault::TooLarge { rows, cols }) => assert!(rt; rows == size.0 && cols == size.1),
        _ => panic!(rt; "a matrix past the limits"),
    }
}
