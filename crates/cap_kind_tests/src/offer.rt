// Categories of matrices over F_5 on worked examples.
mod calls;
mod rooms;

use calls::{assert_gives, assert_too_large, congruent};
use cap_data::MorData;
use cap_names::TooLarge;
use cap_offer::LitFault;
use cap_ops::operations::{
    ADD, COKERNEL, COLIFT, COMPOSE, DIRECT_SUM, IDENTITY, KERNEL, LIFT, PULLBACK, PUSHOUT, SCALE,
    ZERO, ZERO_OBJECT,
};
use rooms::{Given, literal, make_room, read};

// Of the objects 0 and 1 the dimension is 2, of 2 and 3 it is 1.
const DIMENSIONS: [u32; 4] = [2, 2, 1, 1];

#[test]
fn sums_and_products_by_their_canonical_data(rt: HostRuntime) {
    let room = make_room(&rt, rt.alloc(), &DIMENSIONS);
    let x = Given::Matrix(0, 1, &[1, 2, 3, 4]);
    let y = Given::Matrix(0, 1, &[0, 1, 1, 0]);
    let z = Given::Matrix(1, 0, &[0, 1, 1, 0]);
    let (two, one) = (Given::Object(0), Given::Object(2));
    assert_gives(&rt, &room, IDENTITY, &[two], &[], &[(0, 0, &[1, 0, 0, 1])]);
    assert_gives(&rt, &room, COMPOSE, &[x, z], &[], &[(0, 0, &[2, 1, 4, 3])]);
    assert_gives(&rt, &room, ZERO, &[one, two], &[], &[(2, 0, &[0, 0])]);
    assert_gives(&rt, &room, ADD, &[x, y], &[], &[(0, 1, &[1, 3, 4, 4])]);
    let scaled = [Given::Residue(2), x];
    assert_gives(&rt, &room, SCALE, &scaled, &[], &[(0, 1, &[2, 4, 1, 3])]);
    assert_gives(&rt, &room, ZERO_OBJECT, &[], &[0], &[(100, 100, &[])]);
    assert_gives(
        &rt,
        &room,
        DIRECT_SUM,
        &[one, two],
        &[3],
        &[
            (2, 100, &[1, 0, 0]),
            (0, 100, &[0, 1, 0, 0, 0, 1]),
            (100, 2, &[1, 0, 0]),
            (100, 0, &[0, 0, 1, 0, 0, 1]),
        ],
    );
    assert!(rt; congruent(&rt, &room, &[x, x]) && !congruent(&rt, &room, &[x, y]));
}

#[test]
fn kernels_lifts_and_pullbacks_by_their_canonical_data(rt: HostRuntime) {
    let room = make_room(&rt, rt.alloc(), &DIMENSIONS);
    let f = Given::Matrix(0, 1, &[1, 2, 2, 4]);
    assert_gives(&rt, &room, KERNEL, &[f], &[1], &[(100, 0, &[1, 2])]);
    assert_gives(&rt, &room, COKERNEL, &[f], &[1], &[(1, 100, &[1, 2])]);
    let row = Given::Matrix(2, 1, &[2, 4]);
    assert_gives(&rt, &room, LIFT, &[row, f], &[], &[(2, 0, &[2, 0])]);
    let other = Given::Matrix(2, 1, &[1, 0]);
    assert_gives(&rt, &room, LIFT, &[other, f], &[], &[]);
    let column = Given::Matrix(0, 2, &[2, 4]);
    assert_gives(&rt, &room, COLIFT, &[f, column], &[], &[(1, 2, &[2, 0])]);
    let (g, h) = (Given::Matrix(0, 2, &[1, 1]), Given::Matrix(3, 2, &[1]));
    let parts = [(100, 0, &[1, 0, 0, 1][..]), (100, 3, &[1, 1][..])];
    assert_gives(&rt, &room, PULLBACK, &[g, h], &[2], &parts);
    let (g, h) = (Given::Matrix(2, 0, &[1, 1]), Given::Matrix(2, 3, &[1]));
    let parts = [(0, 100, &[1, 0, 0, 1][..]), (3, 100, &[1, 1][..])];
    assert_gives(&rt, &room, PUSHOUT, &[g, h], &[2], &parts);
}

#[test]
fn sizes_past_the_limits(rt: HostRuntime) {
    let room = make_room(&rt, rt.alloc(), &[2048, 1]);
    let (long, one) = (Given::Object(0), Given::Object(1));
    let (column, row) = (Given::Matrix(0, 1, &[]), Given::Matrix(1, 0, &[]));
    let unit = Given::Matrix(1, 1, &[1]);
    assert_too_large(&rt, &room, IDENTITY, &[long], (2048, 2048));
    assert_too_large(&rt, &room, COMPOSE, &[column, row], (2048, 2048));
    assert_too_large(&rt, &room, ZERO, &[long, long], (2048, 2048));
    assert_too_large(&rt, &room, DIRECT_SUM, &[one, long], (1, 2049));
    assert_too_large(&rt, &room, KERNEL, &[column], (2048, 2048));
    assert_too_large(&rt, &room, COKERNEL, &[row], (2048, 2048));
    assert_too_large(&rt, &room, LIFT, &[column, column], (2048, 2048));
    assert_too_large(&rt, &room, COLIFT, &[row, row], (2048, 2048));
    assert_too_large(&rt, &room, PULLBACK, &[column, unit], (2049, 1));
    assert_too_large(&rt, &room, PUSHOUT, &[row, unit], (2049, 1));
}

/// A literal: the dimensions, its own rows and columns and integers, and the cells that it stands for; none where its size is wrong.
type Case<'a> = (u32, u32, u32, u32, &'a [i64], Option<&'a [u16]>);

#[test]
fn literals_within_the_limits(rt: HostRuntime) {
    let alloc = rt.alloc();
    let room = make_room(&rt, alloc, &[]);
    let cases: [Case; 9] = [
        (2, 2, 2, 2, &[-1, 5, 7, -13], Some(&[4, 0, 2, 2])),
        (0, 3, 0, 0, &[], Some(&[])),
        (3, 0, 0, 0, &[], Some(&[])),
        (0, 0, 0, 0, &[], Some(&[])),
        (2, 1, 0, 0, &[], None),
        (2, 2, 3, 2, &[], None),
        (2, 2, 2, 3, &[], None),
        (2, 3, 3, 2, &[], None),
        (2049, 1, 2048, 1, &[], None),
    ];
    for (rows, cols, height, width, cells, wanted) in cases {
        let lit = literal(&rt, alloc, height, width, cells);
        match (read(alloc, &room, rows, cols, lit), wanted) {
            (Ok(MorData::Mat(m)), Some(wanted)) => assert!(rt; m.cells() == wanted),
            (Err(LitFault::Shape { part }), None) => assert_eq!(rt; part, 1),
            _ => panic!(rt; "a literal of {height} rows between {rows} and {cols}"),
        }
    }
}

#[test]
fn literals_of_many_rows(rt: HostRuntime) {
    let alloc = rt.alloc();
    let room = make_room(&rt, alloc, &[]);
    let lit = literal(&rt, alloc, 2048, 1, &[7]);
    match read(alloc, &room, 2048, 1, lit) {
        Ok(MorData::Mat(m)) => assert!(rt; m.rows() == 2048 && m.cells().first() == Some(&2)),
        _ => panic!(rt; "a matrix of 2,048 rows"),
    }
    let lit = literal(&rt, alloc, 2049, 1, &[]);
    match read(alloc, &room, 2049, 1, lit) {
        Err(LitFault::TooLarge(TooLarge { rows, cols })) => assert!(rt; rows == 2049 && cols == 1),
        _ => panic!(rt; "a matrix past the limits"),
    }
}
