// Products of combinations, added to a row of coefficients.
ghost use Rattle.std.specs.Prelude.{◌≡◌, ℕ, ◌+◌, ◌*◌, ◌/◌, ◌%◌, ◌<◌, ◌≤◌, length, slice_index};
ghost use Rattle.cap_laws.specs.Table.{total_below, ends_of, IsRow, width_of, hom_of};

use cap_field::reduced;
use cap_laws::Table;

/// Adds a multiple of a row of residues to another. `m` is 65536 / p.
pub(crate) fn add_multiple(sum: &mut [u16], factor: u16, row: &[u16], p: u16, m: u16)
    requires size { length row.now ≡ length sum.old }
    requires low { 2 ≤ p }
    requires high { p ≤ 251 }
    requires ratio { m ≡ 65536 / p }
    requires factor { factor < p }
    requires sum_small { (k : ℕ) → k < length sum.old → slice_index sum.old k < p }
    requires row_small { (k : ℕ) → k < length row.now → slice_index row.now k < p }
    ensures added { (k : ℕ) → k < length sum.old → slice_index sum.new k ≡ (slice_index sum.old k + factor * slice_index row.now k) % p }
    ensures long { length sum.new ≡ length sum.old }
{
    for k in 0..sum.len() {
        sum[k] = reduced(sum[k] + factor * row[k], p, m);
    }
}

/// Adds u·v, for a multiple u of one basis element and a combination v, to a row of coefficients.
fn add_second<T: Table>(
    table: &T,
    sum: &mut [u16],
    first: u32,
    factor: u16,
    second: &[u32],
    v: &[u16],
    p: u16,
    m: u16,
)
    requires low { 2 ≤ p }
    requires high { p ≤ 251 }
    requires ratio { m ≡ 65536 / p }
    requires prime { (T.table table.now).prime ≡ p }
    requires first { first < length (T.table table.now).basis }
    requires second { (j : ℕ) → j < length second.now → slice_index second.now j < length (T.table table.now).basis }
    requires meet { (j : ℕ) → j < length second.now → (ends_of (T.table table.now) first).1 ≡ (ends_of (T.table table.now) (slice_index second.now j)).0 }
    requires same_width { (j : ℕ) → j < length second.now → length ((T.table table.now).product first (slice_index second.now j)) ≡ length sum.old }
    requires residues { (j k : ℕ) → j < length second.now → k < length sum.old → slice_index ((T.table table.now).product first (slice_index second.now j)) k < p }
    requires factor { factor < p }
    requires long { length v.now ≡ length second.now }
    requires v_small { (j : ℕ) → j < length v.now → slice_index v.now j < p }
    requires sum_small { (k : ℕ) → k < length sum.old → slice_index sum.old k < p }
    ensures added { (k : ℕ) → k < length sum.old → slice_index sum.new k
        ≡ (slice_index sum.old k + total_below (length second.now) (λ j. factor * slice_index v.now j * slice_index ((T.table table.now).product first (slice_index second.now j)) k)) % p }
    ensures long { length sum.new ≡ length sum.old }
{
    for j in 0..second.len() {
        let times = reduced(factor * v[j], p, m);
        add_multiple(sum, times, table.product(first, second[j]), p, m);
    }
}

/// Adds the product of a combination u from x to y and a combination v from y to z to a row of coefficients.
pub(crate) fn add_product<T: Table>(
    table: &T,
    sum: &mut [u16],
    x: u32,
    y: u32,
    z: u32,
    u: &[u16],
    v: &[u16],
)
    requires from { x < (T.table table.now).objects }
    requires middle { y < (T.table table.now).objects }
    requires to { z < (T.table table.now).objects }
    requires left { IsRow (T.table table.now) x y u.now }
    requires right { IsRow (T.table table.now) y z v.now }
    requires whole { IsRow (T.table table.now) x z sum.old }
    ensures added { (k : ℕ) → k < length sum.old → slice_index sum.new k
        ≡ (slice_index sum.old k + total_below (width_of (T.table table.now) x y) (λ i. total_below (width_of (T.table table.now) y z) (λ j.
        slice_index u.now i * slice_index v.now j * slice_index ((T.table table.now).product (slice_index (hom_of (T.table table.now) x y) i) (slice_index (hom_of (T.table table.now) y z) j)) k))) % (T.table table.now).prime }
    ensures long { length sum.new ≡ length sum.old }
{
    let first = table.hom(x, y);
    let second = table.hom(y, z);
    let p = table.field().prime();
    for i in 0..first.len() {
        add_second(
            table,
            sum,
            first[i],
            u[i],
            second,
            v,
            p as u16,
            (65536 / p) as u16,
        );
    }
}
