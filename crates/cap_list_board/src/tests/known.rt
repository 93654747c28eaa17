// Whether arguments are data of a board.
ghost use Rattle.std.specs.Prelude.{◌≡◌, IsTrue};
ghost use Rattle.cap_matrix.specs.Grid.{IsMatrixOf};
ghost use Rattle.cap_ops.specs.Arrows.{arguments};
ghost use Rattle.cap_ops.specs.Told.{Known, told_in};
ghost use Rattle.cap_list_board.specs.Benches.{IsBench, IsArrowOf, IsArgumentOf};

use super::benches::Bench;
use cap_data::{MorData, ObjData};
use cap_field::Field;
use cap_matrix::Matrix;
use cap_ops::{Arg, Arrow, Offer};
use cap_vec_offer::VecOffer;

/// Whether a matrix is over the field and has this size.
fn is_matrix(m: &Matrix, field: Field, rows: u32, cols: u32) -> bool
    ensures { IsTrue result → IsMatrixOf field rows cols m.now }
{
    if m.field().prime() != field.prime() || m.rows() != rows {
        return false;
    }
    m.cols() == cols
}

/// Whether a morphism is a matrix over the field between objects that were told.
fn is_arrow(objects: &[ObjData], field: Field, f: &Arrow<MorData>) -> bool
    ensures { IsTrue result → IsArrowOf objects.now field f.now }
{
    let src = f.src.0 as usize;
    let tgt = f.tgt.0 as usize;
    if src >= objects.len() || tgt >= objects.len() {
        return false;
    }
    match (&objects[src], &objects[tgt], &f.value) {
        (ObjData::Dim(rows), ObjData::Dim(cols), MorData::Mat(m)) => {
            is_matrix(m, field, *rows, *cols)
        }
        _ => false,
    }
}

fn is_argument(objects: &[ObjData], field: Field, arg: &Arg<MorData>) -> bool
    ensures { IsTrue result → IsArgumentOf objects.now field arg.now }
{
    match arg {
        Arg::Obj(h) => (h.0 as usize) < objects.len(),
        Arg::Mor(f) => is_arrow(objects, field, f),
        Arg::Num(n) => (*n as u32) < field.prime(),
    }
}

/// Whether all arguments are objects, morphisms and residues of the board's category.
pub fn are_known(b: &Bench, field: Field, args: &[Arg<MorData>]) -> bool
    requires is { IsBench ⟦<VecOffer as Offer>⟧.offered b.now.board b.now.offer b.now.rules }
    requires field { (⟦<VecOffer as Offer>⟧.offered b.now.offer).category.prime ≡ field }
    ensures { IsTrue result → Known (⟦<VecOffer as Offer>⟧.offered b.now.offer).category (told_in b.now.board.objects) (arguments args.now) }
{
    let objects = b.board.objects();
    for arg in args {
        if !is_argument(objects, field, arg) {
            return false;
        }
    }
    true
}
