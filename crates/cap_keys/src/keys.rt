// Whether two keys are equal.
ghost use Rattle.std.specs.Prelude.{◌≡◌, ◌↔◌, IsTrue};

use cap_ops::{Arg, Arrow, Datum, Key};

fn same_arrow<M: Datum>(a: &Arrow<M>, b: &Arrow<M>) -> bool
    ensures { IsTrue result ↔ (a.now ≡ b.now) }
{
    a.src == b.src && a.tgt == b.tgt && a.value.same(&b.value)
}

fn same_argument<M: Datum>(a: &Arg<M>, b: &Arg<M>) -> bool
    ensures { IsTrue result ↔ (a.now ≡ b.now) }
{
    match (a, b) {
        (Arg::Obj(x), Arg::Obj(y)) => *x == *y,
        (Arg::Mor(f), Arg::Mor(g)) => same_arrow(f, g),
        (Arg::Num(m), Arg::Num(n)) => *m == *n,
        _ => false,
    }
}

fn same_arguments<M: Datum>(a: &[Arg<M>], b: &[Arg<M>]) -> bool
    ensures { IsTrue result ↔ (a.now ≡ b.now) }
{
    if a.len() != b.len() {
        return false;
    }
    for i in 0..a.len() {
        if !same_argument(&a[i], &b[i]) {
            return false;
        }
    }
    true
}

/// Whether two keys are equal: their operations, handles, residues and data.
pub fn same_key<M: Datum>(a: &Key<M>, b: &Key<M>) -> bool
    ensures { IsTrue result ↔ (a.now ≡ b.now) }
{
    a.op == b.op && same_arguments(a.args.as_slice(), b.args.as_slice())
}
