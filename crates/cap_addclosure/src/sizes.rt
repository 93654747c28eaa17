// How many coefficients matrices between two lists have, and whether they keep the limits.
ghost use Rattle.std.specs.Prelude.{◌≡◌, ◌<◌, ◌≤◌, ◌↔◌, IsTrue, length};
ghost use Rattle.cap_laws.specs.Answers.{Answers};
ghost use Rattle.cap_add_laws.specs.Closure.{AreObjects, widths_of, sum_list};
ghost use Rattle.cap_laws.specs.Table.{width_of};
ghost use Rattle.cap_addclosure.specs.Sizes.{closure_size};

use cap_laws::{CatFault, Table};

/// How many basis elements lead from x to y.
pub(crate) fn width<T: Table>(table: &T, x: u32, y: u32) -> u32
    requires from { x < (T.table table.now).objects }
    requires to { y < (T.table table.now).objects }
    ensures value { result ≡ width_of (T.table table.now) x y }
    ensures few { result ≤ 128 }
{
    table.hom(x, y).len() as u32
}

/// How many coefficients the entries of a matrix from a to b have.
pub(crate) fn dimension<T: Table>(table: &T, a: &[u32], b: &[u32]) -> u32
    requires from { AreObjects (T.table table.now) a.now }
    requires to { AreObjects (T.table table.now) b.now }
    requires short { length a.now ≤ 4096 }
    requires narrow { length b.now ≤ 4096 }
    ensures value { result ≡ sum_list (widths_of (T.table table.now) a.now b.now) }
{
    let mut count: u32 = 0;
    for k in 0..a.len() * b.len() {
        count += width(table, a[k / b.len()], b[k % b.len()]);
    }
    count
}

/// Whether a size keeps the limits.
fn fits(rows: usize, cols: usize, cells: u32) -> bool
    ensures { IsTrue result ↔ ((rows ≤ 2048) × (cols ≤ 2048) × (cells ≤ 1048576)) }
{
    rows <= 2048 && cols <= 2048 && cells <= 1_048_576
}

/// The number of coefficients, where a matrix from a to b keeps the limits.
pub fn checked<T: Table>(table: &T, a: &[u32], b: &[u32]) -> Result<u32, CatFault>
    requires from { AreObjects (T.table table.now) a.now }
    requires to { AreObjects (T.table table.now) b.now }
    requires short { length a.now ≤ 4096 }
    requires narrow { length b.now ≤ 4096 }
    ensures { Answers (λ s. s ≡ closure_size (T.table table.now) a.now b.now) (λ n. n ≡ sum_list (widths_of (T.table table.now) a.now b.now)) result }
{
    let count = dimension(table, a, b);
    if !fits(a.len(), b.len(), count) {
        return Err(CatFault::TooLarge {
            rows: a.len() as u32,
            cols: b.len() as u32,
        });
    }
    Ok(count)
}
