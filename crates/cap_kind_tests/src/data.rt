// Data of every kind, compared, counted and copied.
ghost use Rattle.std.specs.Prelude.{◌≡◌, ◌∷◌, []};

use cap_data::{Entries, Limited, MorData, ObjData};
use cap_field::Field;
use cap_matrix::Matrix;
use cap_names::Items;
use cap_ops::Datum;
use std::alloc::Global;
use std::process::Abort;

/// A list of one.
fn single<T: Drop>(rt: &impl Abort, alloc: Global, item: T) -> Items<T>
    ensures { result ≡ item ∷ [] }
{
    let mut items = Vec::new(alloc);
    items
        .push(item)
        .map_err(|_| "no room")
        .expect(rt, "room for one");
    Items::new(items)
}

/// One entry with the coefficients 3 and 1.
fn entries(rt: &impl Abort, alloc: Global) -> Entries {
    let coefficients = Vec::from_slice(alloc, &[3, 1]).expect(rt, "room for the coefficients");
    Entries::new(single(rt, alloc, Items::new(coefficients)))
}

/// The identity with 2 rows over F_5.
fn matrix(rt: &impl Abort, alloc: Global) -> Matrix {
    let field = Field::from_prime(5).expect(rt, "5 is a prime of the table");
    Matrix::identity(alloc, field, 2).expect(rt, "room for the matrix")
}

/// An object of each kind, and how many cells it has.
fn object(rt: &impl Abort, alloc: Global, kind: u8) -> (ObjData, u64) {
    match kind {
        0 => (ObjData::Dim(7), 0),
        1 => (ObjData::Parts(Limited::new(single(rt, alloc, 2))), 1),
        2 => {
            let object = ObjData::Relation {
                src: Limited::new(single(rt, alloc, 0)),
                tgt: Limited::new(single(rt, alloc, 1)),
                rho: entries(rt, alloc),
            };
            (object, 4)
        }
        _ => {
            let object = ObjData::Dims {
                dims: Limited::new(single(rt, alloc, 2)),
                maps: Limited::new(single(rt, alloc, matrix(rt, alloc))),
            };
            (object, 4)
        }
    }
}

/// A morphism of each kind, and how many cells it has.
fn morphism(rt: &impl Abort, alloc: Global, kind: u8) -> (MorData, u64) {
    match kind {
        0 => (MorData::Mat(matrix(rt, alloc)), 4),
        1 => (MorData::Entries(entries(rt, alloc)), 2),
        _ => (
            MorData::Parts(Limited::new(single(rt, alloc, matrix(rt, alloc)))),
            4,
        ),
    }
}

#[test]
fn data_are_equal_to_their_copies_and_to_no_other_kind(rt: HostRuntime) {
    let alloc = rt.alloc();
    for i in 0..4 {
        let (datum, cells) = object(&rt, alloc, i);
        assert_eq!(rt; datum.cells(), cells);
        let copy = datum.copy(alloc).expect(&rt, "room for the object");
        for j in 0..4 {
            let (other, _) = object(&rt, alloc, j);
            assert_eq!(rt; copy.same(&other), i == j);
        }
    }
    for i in 0..3 {
        let (datum, cells) = morphism(&rt, alloc, i);
        assert_eq!(rt; datum.cells(), cells);
        let copy = datum.copy(alloc).expect(&rt, "room for the morphism");
        for j in 0..3 {
            let (other, _) = morphism(&rt, alloc, j);
            assert_eq!(rt; copy.same(&other), i == j);
        }
    }
}
