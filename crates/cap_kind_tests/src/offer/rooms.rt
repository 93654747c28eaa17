// A category of matrices over F_5 with some objects, and literals for it.
ghost use Rattle.std.specs.Prelude.{◌≡◌, ◌∷◌, [], Some, IfOk, slice_get};
ghost use Rattle.std.specs.List.{All};
ghost use Rattle.cap_data.specs.declared.data.ObjData.TheVariants.{Dim};
ghost use Rattle.cap_ops.specs.Arrows.{arguments};
ghost use Rattle.cap_ops.specs.Told.{IsArrow, Known, told_in};
ghost use Rattle.cap_primitives.specs.Given.{from_to};
ghost use Rattle.cap_offer.specs.Labels.{any_offer};
ghost use Rattle.cap_offer.specs.Literals.{IsInteger, HasIntegers};

use cap_data::{MorData, ObjData};
use cap_field::Field;
use cap_names::{EntryLit, Handle, Items, MatLit, MorLit, ObjLit};
use cap_offer::{AnyCat, LitFault};
use cap_ops::{Arg, Arrow, Kind, Objects, Offer};
use std::alloc::Global;
use std::process::Abort;

/// A category, and its objects by handle.
#[derive(Drop)]
pub struct Room {
    pub cat: AnyCat,
    pub objects: Items<ObjData>,
    pub alloc: Global,
}

impl Objects<ObjData> for Room {
    ghost use Rattle.cap_ops.specs.Told.{told_in};

    ghost told = { λ r. told_in r.objects };

    fn object(&self, h: Handle) -> &ObjData {
        &self.objects.as_slice()[h.0 as usize]
    }
}

/// An argument: an object, a morphism by its entries row after row (0 for those left out), or a residue.
#[derive(Clone, Copy)]
pub enum Given<'a> {
    Object(u32),
    Matrix(u32, u32, &'a [i64]),
    Residue(u16),
}

/// The matrices over F_5, with objects of these dimensions.
pub fn make_room(rt: &impl Abort, alloc: Global, dims: &[u32]) -> Room {
    let field = Field::from_prime(5).expect(rt, "5 is a prime of the table");
    let cat = AnyCat::new(alloc, Kind::Mat, field).expect(rt, "room for the category");
    let mut objects = Vec::new(alloc);
    for n in dims {
        objects
            .push(ObjData::Dim(*n))
            .map_err(|_| "no room")
            .expect(rt, "room for the object");
    }
    Room {
        cat,
        objects: Items::new(objects),
        alloc,
    }
}

/// A row of `cols` integers, those from place `at` on.
fn literal_row(
    rt: &impl Abort,
    alloc: Global,
    at: usize,
    cols: u32,
    cells: &[i64],
) -> Items<EntryLit>
    ensures { All IsInteger result }
{
    let mut entries = Vec::new(alloc);
    for j in 0..cols as usize {
        let cell = cells.get(at.saturating_add(j)).copied().unwrap_or(0);
        entries
            .push(EntryLit::Int(cell))
            .map_err(|_| "no room")
            .expect(rt, "room for the entry");
    }
    Items::new(entries)
}

/// A literal of this size with these integers, row after row, and 0 for those left out.
pub fn literal(rt: &impl Abort, alloc: Global, rows: u32, cols: u32, cells: &[i64]) -> MatLit
    ensures { HasIntegers result }
{
    let mut written = Vec::new(alloc);
    for i in 0..rows as usize {
        let row = literal_row(rt, alloc, i.saturating_mul(cols as usize), cols, cells);
        written
            .push(row)
            .map_err(|_| "no room")
            .expect(rt, "room for the row");
    }
    MatLit {
        rows: Items::new(written),
    }
}

/// The dimension of the object of a handle.
fn dimension(rt: &impl Abort, room: &Room, h: u32) -> u32
    ensures { slice_get room.now.objects h ≡ Some (Dim result) }
{
    let objects = room.objects.as_slice();
    assert!(rt; (h as usize) < objects.len());
    match &objects[h as usize] {
        ObjData::Dim(n) => *n,
        _ => panic!(rt; "an object is a dimension"),
    }
}

/// What a matrix literal between dimensions stands for.
pub fn read(
    alloc: Global,
    room: &Room,
    rows: u32,
    cols: u32,
    lit: MatLit,
) -> Result<MorData, LitFault>
    requires { HasIntegers lit }
    ensures { IfOk result (λ m. IsArrow (any_offer room.now.cat).category (from_to (Dim rows) (Dim cols) m)) }
{
    let source = ObjData::Dim(rows);
    let target = ObjData::Dim(cols);
    let lit = MorLit::Rows(lit);
    room.cat.morphism(alloc, &source, &target, &lit)
}

/// The argument, which the room knows.
fn argument(rt: &impl Abort, alloc: Global, room: &Room, given: &Given) -> Arg<MorData>
    ensures { Known (any_offer room.now.cat).category (told_in room.now.objects) (arguments (result ∷ [])) }
{
    match given {
        Given::Object(h) => {
            let _ = dimension(rt, room, *h);
            Arg::Obj(Handle(*h))
        }
        Given::Matrix(src, tgt, cells) => {
            let rows = dimension(rt, room, *src);
            let cols = dimension(rt, room, *tgt);
            let lit = literal(rt, alloc, rows, cols, cells);
            let value = read(alloc, room, rows, cols, lit).expect(rt, "a morphism");
            Arg::Mor(Arrow {
                src: Handle(*src),
                tgt: Handle(*tgt),
                value,
            })
        }
        Given::Residue(n) => {
            let field = room.cat.field();
            if *n as u32 >= field.prime() {
                panic!(rt; "a residue is below the prime");
            }
            Arg::Num(*n)
        }
    }
}

/// The arguments, which the room knows.
pub fn known_arguments(
    rt: &impl Abort,
    alloc: Global,
    room: &Room,
    givens: &[Given],
) -> Items<Arg<MorData>>
    ensures { Known (any_offer room.now.cat).category (told_in room.now.objects) (arguments result) }
{
    let mut args = Vec::new(alloc);
    for given in givens {
        args.push(argument(rt, alloc, room, given))
            .map_err(|_| "no room")
            .expect(rt, "room for the argument");
    }
    Items::new(args)
}
