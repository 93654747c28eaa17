// Calls over a board that is a list, on worked examples over F_5.
mod benches;
mod known;

ghost use Rattle.std.specs.Prelude.{◌≡◌};
ghost use Rattle.cap_list_board.specs.Benches.{IsBench};

use benches::{Bench, answer, assert_is, counts, final_bench, morphism, object, open};
use cap_board::CallRefusal;
use cap_data::MorData;
use cap_names::{Handle, TooLarge};
use cap_ops::operations::{
    COKERNEL, COMPOSE, DIRECT_SUM, IDENTITY, INVERSE, IS_MONO, PULLBACK, SECTION,
};
use cap_ops::{Arg, Mismatch, Offer, Value};
use cap_vec_offer::VecOffer;
use std::alloc::Global;
use std::process::Abort;

/// The pullback of [1; 1] and [1], of objects of dimensions 2, 1 and 1 with the handles 0, 1 and 2.
fn pullback(rt: &impl Abort, alloc: Global, b: &mut Bench) -> Result<Value<MorData>, CallRefusal>
    requires { IsBench ⟦<VecOffer as Offer>⟧.offered b.old.board b.old.offer b.old.rules }
    ensures { IsBench ⟦<VecOffer as Offer>⟧.offered b.new.board b.new.offer b.new.rules }
{
    let f = morphism(rt, alloc, b, Handle(0), Handle(2), &[1, 1]);
    let g = morphism(rt, alloc, b, Handle(1), Handle(2), &[1]);
    answer(rt, alloc, b, PULLBACK, &[Arg::Mor(f), Arg::Mor(g)])
}

/// The pair [1 0; 0 1] and [1; 1] out of the object 4: for h = [1; 1; 4] on the sum of dimension 3 the rows
/// x with x·h = 0 are those with x1 + x2 = x3, whose reduced basis is (1 0 1), (0 1 1).
fn assert_is_pullback(rt: &impl Abort, value: &Value<MorData>) {
    match value {
        Value::Many(arrows) => match arrows.as_slice() {
            [p, q] => {
                assert_is(rt, p, 4, 0, &[1, 0, 0, 1]);
                assert_is(rt, q, 4, 1, &[1, 1]);
            }
            _ => panic!(rt; "a pair is two morphisms"),
        },
        _ => panic!(rt; "a pullback is a pair"),
    }
}

/// A board with objects of dimensions 2, 1 and 1.
fn three_objects(rt: &impl Abort, alloc: Global, limit: u32) -> Bench
    ensures { IsBench ⟦<VecOffer as Offer>⟧.offered result.board result.offer result.rules }
{
    let mut b = final_bench(rt, alloc, limit);
    for size in [2, 1, 1] {
        let _ = object(rt, &mut b, size);
    }
    b
}

#[test]
fn pullback_by_its_rule_and_then_from_the_board(rt: HostRuntime) {
    let alloc = rt.alloc();
    let mut b = three_objects(&rt, alloc, 100);
    let first = pullback(&rt, alloc, &mut b).expect(&rt, "a pullback");
    assert_is_pullback(&rt, &first);
    // The pullback, its sum, four composites, a difference, a negative, a multiple, a sum of morphisms and a kernel.
    assert_eq!(rt; counts(&b), (5, 11, 22));
    let second = pullback(&rt, alloc, &mut b).expect(&rt, "a pullback");
    assert_is_pullback(&rt, &second);
    assert_eq!(rt; counts(&b), (5, 11, 23));
}

/// What an operation on one morphism answers, from an object of dimension `rows` to one of dimension `cols`.
fn on_one(
    rt: &impl Abort,
    alloc: Global,
    op: u8,
    rows: u32,
    cols: u32,
    cells: &[u16],
) -> Result<Value<MorData>, CallRefusal> {
    let mut b = final_bench(rt, alloc, 100);
    let source = object(rt, &mut b, rows);
    let target = object(rt, &mut b, cols);
    let f = morphism(rt, alloc, &b, source, target, cells);
    let args = [Arg::Mor(f)];
    match op {
        24 => answer(rt, alloc, &mut b, IS_MONO, &args),
        29 => answer(rt, alloc, &mut b, INVERSE, &args),
        30 => answer(rt, alloc, &mut b, SECTION, &args),
        _ => answer(rt, alloc, &mut b, COKERNEL, &args),
    }
}

#[test]
fn a_row_is_mono_and_a_column_is_not(rt: HostRuntime) {
    let row = on_one(&rt, rt.alloc(), 24, 1, 2, &[1, 1]);
    assert!(rt; matches!(row, Ok(Value::Truth(true))));
    let column = on_one(&rt, rt.alloc(), 24, 2, 1, &[1, 1]);
    assert!(rt; matches!(column, Ok(Value::Truth(false))));
}

/// Asserts that the answer is this morphism.
fn assert_one(
    rt: &impl Abort,
    outcome: &Result<Value<MorData>, CallRefusal>,
    src: u32,
    tgt: u32,
    cells: &[u16],
) {
    match outcome {
        Ok(Value::One(f)) => assert_is(rt, f, src, tgt, cells),
        _ => panic!(rt; "the answer is a morphism"),
    }
}

#[test]
fn sections_and_inverses_or_none(rt: HostRuntime) {
    // (1 0)·[1; 1] = 1, and the second row of [1; 1] is in the span of the first.
    let section = on_one(&rt, rt.alloc(), 30, 2, 1, &[1, 1]);
    assert_one(&rt, &section, 1, 0, &[1, 0]);
    let none = on_one(&rt, rt.alloc(), 30, 1, 2, &[1, 1]);
    assert!(rt; matches!(none, Ok(Value::Nothing)));
    // 2·3 = 1 modulo 5.
    let inverse = on_one(&rt, rt.alloc(), 29, 1, 1, &[2]);
    assert_one(&rt, &inverse, 1, 0, &[3]);
    let none = on_one(&rt, rt.alloc(), 29, 2, 1, &[1, 1]);
    assert!(rt; matches!(none, Ok(Value::Nothing)));
}

#[test]
fn a_cokernel_has_no_plan(rt: HostRuntime) {
    let refusal = on_one(&rt, rt.alloc(), 18, 2, 1, &[1, 1]);
    assert!(rt; matches!(refusal, Err(CallRefusal::Missing { op: COKERNEL })));
}

#[test]
fn ends_of_equal_dimension_are_not_one_object(rt: HostRuntime) {
    let alloc = rt.alloc();
    let mut b = three_objects(&rt, alloc, 100);
    let f = morphism(&rt, alloc, &b, Handle(0), Handle(1), &[1, 1]);
    let g = morphism(&rt, alloc, &b, Handle(2), Handle(1), &[1]);
    let refusal = answer(&rt, alloc, &mut b, COMPOSE, &[Arg::Mor(f), Arg::Mor(g)]);
    match refusal {
        Err(CallRefusal::Mismatch(Mismatch { place, left, right })) => {
            assert_eq!(rt; (place, left, right), (3, Handle(1), Handle(2)));
        }
        _ => panic!(rt; "the third end has another object"),
    }
    assert_eq!(rt; counts(&b), (3, 0, 0));
}

#[test]
fn a_matrix_past_the_limits_is_not_kept(rt: HostRuntime) {
    let alloc = rt.alloc();
    let mut b = final_bench(&rt, alloc, 100);
    for size in [2000, 100, 0] {
        let _ = object(&rt, &mut b, size);
    }
    for asked in [2, 4] {
        let refusal = pullback(&rt, alloc, &mut b);
        match refusal {
            // The first injection into the sum.
            Err(CallRefusal::TooLarge(TooLarge { rows, cols })) => {
                assert_eq!(rt; (rows, cols), (2000, 2100));
            }
            _ => panic!(rt; "the sum is past the limits"),
        }
        assert_eq!(rt; counts(&b), (3, 0, asked));
    }
}

#[test]
fn a_board_answers_nothing_before_it_is_final(rt: HostRuntime) {
    let alloc = rt.alloc();
    let mut b = open(&rt, alloc, 100);
    let a = object(&rt, &mut b, 2);
    let refusal = answer(&rt, alloc, &mut b, IDENTITY, &[Arg::Obj(a)]);
    assert!(rt; matches!(refusal, Err(CallRefusal::NotFinal)));
    assert_eq!(rt; counts(&b), (1, 0, 1));
}

#[test]
fn a_full_board_answers_what_it_keeps(rt: HostRuntime) {
    let alloc = rt.alloc();
    let mut b = three_objects(&rt, alloc, 10);
    // Ten entries are made by the body, and the eleventh has no room.
    let refusal = pullback(&rt, alloc, &mut b);
    assert!(rt;
        matches!(
            refusal,
            Err(CallRefusal::Full {
                entries: 10,
                cells: 0
            })
        )
    );
    assert_eq!(rt; counts(&b), (5, 10, 22));
    let sum = answer(
        &rt,
        alloc,
        &mut b,
        DIRECT_SUM,
        &[Arg::Obj(Handle(0)), Arg::Obj(Handle(1))],
    );
    assert!(rt; matches!(sum, Ok(Value::Many(_))));
    let refusal = answer(&rt, alloc, &mut b, IDENTITY, &[Arg::Obj(Handle(0))]);
    assert!(rt;
        matches!(
            refusal,
            Err(CallRefusal::Full {
                entries: 10,
                cells: 0
            })
        )
    );
    assert_eq!(rt; counts(&b), (5, 10, 24));
}
