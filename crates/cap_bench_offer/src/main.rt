// Times composites of square matrices over F_101: each line of standard input is a size and a number of runs. It prints the size with the least
// microseconds of a bare product and of the primitive of the category's offer.
#![tactic(auto)]

ghost use Rattle.std.specs.Prelude.{◌≡◌, Some, IfOk, IfSome};
ghost use Rattle.std.specs.List.{All};
ghost use Rattle.cap_data.specs.declared.data.ObjData.TheVariants.{Dim};
ghost use Rattle.cap_ops.specs.Arrows.{arguments};
ghost use Rattle.cap_ops.specs.Mismatches.{HaveSorts};
ghost use Rattle.cap_ops.specs.Told.{IsArrow, Known};
ghost use Rattle.cap_offer.specs.Labels.{any_offer};
ghost use Rattle.cap_offer.specs.Literals.{IsInteger, HasIntegers};
ghost use Rattle.cap_primitives.specs.Given.{from_to};

use cap_data::{MorData, ObjData};
use cap_field::Field;
use cap_names::{EntryLit, Handle, Items, MatLit, MorLit, NoMemory};
use cap_offer::AnyCat;
use cap_ops::operations::COMPOSE;
use cap_ops::{Arg, Arrow, Kind, Objects, Offer, ends_fit};
use std::alloc::Global;
use std::io;
use std::time::Instant;

/// One object for each handle.
#[derive(Drop)]
struct One {
    object: ObjData,
}

impl Objects<ObjData> for One {
    ghost use Rattle.std.specs.Prelude.{Some};

    ghost told = { λ o h. Some o.object };

    fn object(&self, _h: Handle) -> &ObjData {
        &self.object
    }
}

/// One more number of a linear congruential generator modulo 2^64, of period 2^64.
fn next(seed: &mut u64) -> u32 {
    *seed = seed
        .wrapping_mul(6364136223846793005)
        .wrapping_add(1442695040888963407);
    (*seed >> 33) as u32
}

/// So many random integers.
fn random_row(alloc: Global, n: u32, seed: &mut u64) -> Result<Items<EntryLit>, NoMemory>
    ensures { IfOk result (λ row. All IsInteger row) }
{
    let mut row = Vec::new(alloc);
    for _ in 0..n {
        row.push(EntryLit::Int((next(seed) % 101) as i64))?;
    }
    Ok(Items::new(row))
}

/// A literal of so many rows and columns.
fn random_square(alloc: Global, n: u32, seed: &mut u64) -> Result<MatLit, NoMemory>
    ensures { IfOk result (λ m. HasIntegers m) }
{
    let mut rows = Vec::new(alloc);
    for _ in 0..n {
        let row = random_row(alloc, n, seed)?;
        rows.push(row)?;
    }
    Ok(MatLit {
        rows: Items::new(rows),
    })
}

/// A random morphism from a dimension to itself.
fn random_morphism(alloc: Global, cat: &AnyCat, n: u32, seed: &mut u64) -> Option<MorData>
    ensures { IfSome result (λ m. IsArrow (any_offer cat.now).category (from_to (Dim n) (Dim n) m)) }
{
    let Ok(rows) = random_square(alloc, n, seed) else {
        return None;
    };
    let object = ObjData::Dim(n);
    match cat.morphism(alloc, &object, &object, &MorLit::Rows(rows)) {
        Ok(f) => Some(f),
        Err(_) => None,
    }
}

/// The composite of two morphisms by the primitive, as whether there is one.
fn composes(alloc: Global, cat: &AnyCat, n: u32, args: &[Arg<MorData>]) -> bool
    requires sorts { HaveSorts 2 args.now }
    requires known { Known (any_offer cat.now).category (λ h. Some (Dim n)) (arguments args.now) }
{
    if cat.offers(COMPOSE).is_none() || ends_fit(COMPOSE, args).is_err() {
        return false;
    }
    let one = One {
        object: ObjData::Dim(n),
    };
    cat.prim(alloc, COMPOSE, args, &one).is_ok()
}

/// The bare product of the matrices of two morphisms, as whether there is one.
fn multiplies(alloc: Global, args: &[Arg<MorData>]) -> bool {
    match args {
        [Arg::Mor(f), Arg::Mor(g)] => match (&f.value, &g.value) {
            (MorData::Mat(x), MorData::Mat(y)) => {
                x.field().prime() == y.field().prime()
                    && x.cols() == y.rows()
                    && x.product(alloc, y).is_ok()
            }
            _ => false,
        },
        _ => false,
    }
}

/// Times a composite: the least of so many runs.
fn time_composite(
    rt: &HostRuntime,
    cat: &AnyCat,
    n: u32,
    args: &[Arg<MorData>],
    runs: u32,
) -> io::Result<()>
    requires sorts { HaveSorts 2 args.now }
    requires known { Known (any_offer cat.now).category (λ h. Some (Dim n)) (arguments args.now) }
{
    let mut bare = u128::MAX;
    let mut called = u128::MAX;
    for _ in 0..runs {
        let start = Instant::now(rt)?;
        let multiplied = multiplies(rt.alloc(), args);
        let time = start.elapsed(rt)?.as_micros();
        if multiplied {
            bare = bare.min(time);
        }
        let start = Instant::now(rt)?;
        let composed = composes(rt.alloc(), cat, n, args);
        let time = start.elapsed(rt)?.as_micros();
        if composed {
            called = called.min(time);
        }
    }
    println!(rt; "{n} {bare} {called}")
}

/// A morphism of the one object to itself.
fn arrow(value: MorData) -> Arrow<MorData>
    ensures { result.value ≡ value }
{
    Arrow {
        src: Handle(0),
        tgt: Handle(0),
        value,
    }
}

/// Times a size.
fn time_size(rt: &HostRuntime, n: u32, runs: u32) -> io::Result<()> {
    let alloc = rt.alloc();
    let Some(field) = Field::from_prime(101) else {
        return println!(rt; "no field");
    };
    let Ok(cat) = AnyCat::new(alloc, Kind::Mat, field) else {
        return println!(rt; "no room");
    };
    let mut seed = 12345u64;
    let Some(f) = random_morphism(alloc, &cat, n, &mut seed) else {
        return println!(rt; "no morphism");
    };
    let Some(g) = random_morphism(alloc, &cat, n, &mut seed) else {
        return println!(rt; "no morphism");
    };
    let args = [Arg::Mor(arrow(f)), Arg::Mor(arrow(g))];
    time_composite(rt, &cat, n, &args, runs)
}

/// The number that a word is, or 0.
fn number(word: Option<&str>) -> u32 {
    match word {
        Some(text) => text.parse::<u32>().unwrap_or(0),
        None => 0,
    }
}

fn main(rt: HostRuntime) -> io::Result<()> {
    for line in rt.lines(rt.alloc()) {
        let text = line?;
        let mut words = text.as_str().split_whitespace();
        let n = number(words.next()).min(1024);
        let runs = number(words.next()).clamp(1, 1000);
        time_size(&rt, n, runs)?;
    }
    Ok(())
}
