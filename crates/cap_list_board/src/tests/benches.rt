// A board over the matrices over F_5 with what a call of it needs, and what its tests look at.
ghost use Rattle.std.specs.Prelude.{◌≡◌, None};
ghost use Rattle.std.specs.List.{All};
ghost use Rattle.cap_ops.specs.Derivations.{IsWeight};
ghost use Rattle.cap_ops.specs.Mismatches.{HaveSorts};
ghost use Rattle.cap_rules.specs.Table.{rule_table};
ghost use Rattle.cap_list_board.specs.Benches.{IsBench};

use super::known::are_known;
use crate::{ListBoard, are_offered};
use cap_board::CallRefusal;
use cap_data::{MorData, ObjData};
use cap_eval::call;
use cap_field::Field;
use cap_matrix::Matrix;
use cap_names::{Handle, OpId};
use cap_ops::{Arg, Arrow, Offer, Regs, Value};
use cap_rules::{costs, rules};
use cap_terms::RuleSet;
use cap_vec_offer::VecOffer;
use std::alloc::Global;
use std::process::Abort;

/// A board, its offer and its rules.
#[derive(Drop)]
pub struct Bench {
    pub board: ListBoard<VecOffer>,
    pub offer: VecOffer,
    pub rules: RuleSet,
}

/// Identity, Compose, Zero, Add and Scale at 1, IsCongruent at 2, DirectSum at 5, Kernel and Lift at 20.
const REGISTERED: [(u8, u32); 9] = [
    (1, 1),
    (2, 1),
    (3, 1),
    (4, 1),
    (7, 1),
    (8, 2),
    (11, 5),
    (16, 20),
    (22, 20),
];

fn nothing() -> Regs
    ensures { All IsWeight result.weights }
{
    Regs {
        weights: [None; 44],
    }
}

/// Registers the operation, where it is one and the weight is in range.
fn register(regs: &mut Regs, number: u8, weight: u32)
    requires { All IsWeight regs.old.weights }
    ensures { All IsWeight regs.new.weights }
{
    if number > 0 && number <= 44 && weight > 0 && weight <= 1_000_000 {
        regs.weights[number as usize - 1] = Some(weight);
    }
}

fn registered() -> Regs
    ensures { All IsWeight result.weights }
{
    let mut regs = nothing();
    for (number, weight) in &REGISTERED {
        register(&mut regs, *number, *weight);
    }
    regs
}

pub fn five(rt: &impl Abort) -> Field
    ensures { result ≡ 5 }
{
    Field::from_prime(5).expect(rt, "5 is a prime of the table")
}

/// A board that isn't final.
pub fn open(rt: &impl Abort, alloc: Global, limit: u32) -> Bench
    ensures is { IsBench ⟦<VecOffer as Offer>⟧.offered result.board result.offer result.rules }
    ensures open { result.board.plan ≡ None }
    ensures rules { result.rules ≡ rule_table }
{
    let field = five(rt);
    let first = VecOffer::new(field);
    let offer = VecOffer::new(field);
    let board_rules = rules(alloc).expect(rt, "room for the rules");
    let call_rules = rules(alloc).expect(rt, "room for the rules");
    let board = ListBoard::new(alloc, first, board_rules, limit);
    Bench {
        board,
        offer,
        rules: call_rules,
    }
}

/// Makes a board final.
pub fn finalise(rt: &impl Abort, b: &mut Bench)
    requires is { IsBench ⟦<VecOffer as Offer>⟧.offered b.old.board b.old.offer b.old.rules }
    requires open { b.old.board.plan ≡ None }
    requires rules { b.old.rules ≡ rule_table }
    ensures { IsBench ⟦<VecOffer as Offer>⟧.offered b.new.board b.new.offer b.new.rules }
{
    let regs = registered();
    if !are_offered(&b.offer, &regs) {
        panic!(rt; "the registered primitives are offered");
    }
    b.board.finalise(&regs, &costs());
}

/// A final board.
pub fn final_bench(rt: &impl Abort, alloc: Global, limit: u32) -> Bench
    ensures { IsBench ⟦<VecOffer as Offer>⟧.offered result.board result.offer result.rules }
{
    let mut b = open(rt, alloc, limit);
    finalise(rt, &mut b);
    b
}

/// Declares an object.
pub fn object(rt: &impl Abort, b: &mut Bench, size: u32) -> Handle
    requires { IsBench ⟦<VecOffer as Offer>⟧.offered b.old.board b.old.offer b.old.rules }
    ensures { IsBench ⟦<VecOffer as Offer>⟧.offered b.new.board b.new.offer b.new.rules }
{
    b.board
        .declare(ObjData::Dim(size))
        .expect(rt, "room for the object")
}

/// The matrix over F_5 with these cells, row after row.
fn matrix(rt: &impl Abort, alloc: Global, rows: u32, cols: u32, cells: &[u16]) -> Matrix {
    let field = five(rt);
    let mut m = Matrix::zero(alloc, field, rows, cols).expect(rt, "room for the matrix");
    for i in 0..rows {
        for j in 0..cols {
            let at = i as usize * cols as usize + j as usize;
            let cell = cells.get(at).copied().unwrap_or(0);
            assert!(rt; (cell as u32) < field.prime());
            m.set(i, j, cell);
        }
    }
    m
}

/// The dimension of an object of the board.
fn dimension(rt: &impl Abort, b: &Bench, h: Handle) -> u32 {
    let objects = b.board.objects();
    assert!(rt; (h.0 as usize) < objects.len());
    match &objects[h.0 as usize] {
        ObjData::Dim(n) => *n,
        _ => panic!(rt; "an object is a dimension"),
    }
}

/// The morphism between these objects whose matrix has these cells, row after row.
pub fn morphism(
    rt: &impl Abort,
    alloc: Global,
    b: &Bench,
    src: Handle,
    tgt: Handle,
    cells: &[u16],
) -> Arrow<MorData> {
    let rows = dimension(rt, b, src);
    let cols = dimension(rt, b, tgt);
    Arrow {
        src,
        tgt,
        value: MorData::Mat(matrix(rt, alloc, rows, cols, cells)),
    }
}

/// What a call answers.
pub fn answer(
    rt: &impl Abort,
    alloc: Global,
    b: &mut Bench,
    op: OpId,
    args: &[Arg<MorData>],
) -> Result<Value<MorData>, CallRefusal>
    requires sorts { HaveSorts op.0 args.now }
    requires is { IsBench ⟦<VecOffer as Offer>⟧.offered b.old.board b.old.offer b.old.rules }
    ensures { IsBench ⟦<VecOffer as Offer>⟧.offered b.new.board b.new.offer b.new.rules }
{
    let field = b.offer.field();
    assert!(rt;
        are_known(b, field, args),
        "the arguments are data of the board"
    );
    call(alloc, &mut b.board, &b.offer, &b.rules, op, args)
}

/// How many objects, entries, and asks and puts the board has.
pub fn counts(b: &Bench) -> (usize, usize, usize) {
    (
        b.board.objects().len(),
        b.board.entries().len(),
        b.board.seen().len(),
    )
}

/// Asserts what a morphism is: its ends, and the cells of its matrix.
pub fn assert_is(rt: &impl Abort, f: &Arrow<MorData>, src: u32, tgt: u32, cells: &[u16]) {
    assert_eq!(rt; f.src, Handle(src));
    assert_eq!(rt; f.tgt, Handle(tgt));
    match &f.value {
        MorData::Mat(m) => assert!(rt; m.cells() == cells),
        _ => panic!(rt; "a morphism is a matrix"),
    }
}
