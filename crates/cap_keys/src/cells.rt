// The cells of keys, of values and of results.
ghost use Rattle.std.specs.Prelude.{◌≡◌, ◌*◌, ◌^◌, ◌≤◌, length};
ghost use Rattle.std.specs.List.{sum_by};
ghost use Rattle.cap_ops.specs.Cells.{argument_cells, key_cells, answer_cells, out_cells, result_cells, IsShortKey, IsShortAnswer, IsShortOut, IsShortResult};

use cap_ops::{Arg, Arrow, Datum, Key, Out, OutArrow, PrimOut, Value};

fn argument_cells<M: Datum>(arg: &Arg<M>) -> u64
    ensures is { result ≡ argument_cells M.cells_of arg.now }
    ensures few { result ≤ 2 ^ 32 }
{
    match arg {
        Arg::Mor(f) => f.value.cells(),
        _ => 0,
    }
}

/// How many residues and parts the data of a key's arguments have.
pub fn key_cells<M: Datum>(key: &Key<M>) -> u64
    requires { IsShortKey key.now }
    ensures is { result ≡ key_cells M.cells_of key.now }
    ensures few { result ≤ 4 * 2 ^ 32 }
{
    let mut total: u64 = 0;
    for arg in key.args.as_slice() {
        total += argument_cells(arg);
    }
    total
}

fn arrows_cells<M: Datum>(arrows: &[Arrow<M>]) -> u64
    requires { length arrows.now ≤ 4 }
    ensures is { result ≡ sum_by (λ f. M.cells_of f.value) arrows.now }
    ensures few { result ≤ 4 * 2 ^ 32 }
{
    let mut total: u64 = 0;
    for f in arrows {
        total += f.value.cells();
    }
    total
}

fn out_arrows_cells<M: Datum>(arrows: &[OutArrow<M>]) -> u64
    requires { length arrows.now ≤ 4 }
    ensures is { result ≡ sum_by (λ f. M.cells_of f.value) arrows.now }
    ensures few { result ≤ 4 * 2 ^ 32 }
{
    let mut total: u64 = 0;
    for f in arrows {
        total += f.value.cells();
    }
    total
}

fn objects_cells<O: Datum>(objects: &[O]) -> u64
    requires { length objects.now ≤ 4 }
    ensures is { result ≡ sum_by O.cells_of objects.now }
    ensures few { result ≤ 4 * 2 ^ 32 }
{
    let mut total: u64 = 0;
    for object in objects {
        total += object.cells();
    }
    total
}

/// How many the data of a value have.
pub fn value_cells<M: Datum>(value: &Value<M>) -> u64
    requires { IsShortAnswer value.now }
    ensures is { result ≡ answer_cells M.cells_of value.now }
    ensures few { result ≤ 4 * 2 ^ 32 }
{
    match value {
        Value::One(f) => f.value.cells(),
        Value::Many(arrows) => arrows_cells(arrows.as_slice()),
        _ => 0,
    }
}

fn out_cells<M: Datum>(out: &Out<M>) -> u64
    requires { IsShortOut out.now }
    ensures is { result ≡ out_cells M.cells_of out.now }
    ensures few { result ≤ 4 * 2 ^ 32 }
{
    match out {
        Out::One(f) => f.value.cells(),
        Out::Many(arrows) => out_arrows_cells(arrows.as_slice()),
        _ => 0,
    }
}

/// How many the data of a result have, its new objects among them.
pub fn result_cells<O: Datum, M: Datum>(given: &PrimOut<O, M>) -> u64
    requires { IsShortResult given.now }
    ensures is { result ≡ result_cells O.cells_of M.cells_of given.now }
    ensures few { result ≤ 8 * 2 ^ 32 }
{
    out_cells(&given.out) + objects_cells(given.fresh.as_slice())
}
