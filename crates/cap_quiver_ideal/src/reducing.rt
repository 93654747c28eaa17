// A row less multiples of the rows of a matrix.
ghost use Rattle.std.specs.Prelude.{◌≡◌, ℕ, ◌+◌, ◌-◌, ◌*◌, ◌%◌, ◌<◌, ◌≤◌, ◌↔◌, IsTrue, true, length, slice_index};
ghost use Rattle.cap_matrix.specs.Grid.{entry};
ghost use Rattle.cap_matrix.specs.Reduced.{InSpan};
ghost use Rattle.cap_quiver_laws.specs.Quotient.{IsCongruent};

use cap_matrix::Matrix;

/// A residue less c times another.
fn lessened(a: u16, c: u16, x: u16, p: u32) -> u16
    requires a { a < p }
    requires c { c < p }
    requires x { x < p }
    requires p { p ≤ 251 }
    ensures { result ≡ (a + (p - c) * x) % p }
{
    if x == 0 {
        a
    } else {
        ((a as u32 + (p - c as u32) * x as u32) % p) as u16
    }
}

/// Takes c times a row of a matrix from a row.
fn take_off(rows: &Matrix, f: u32, c: u16, row: &mut [u16])
    requires inside { f < rows.now.row_count }
    requires width { length row.old ≡ rows.now.column_count }
    requires residues { (q : ℕ) → q < length row.old → slice_index row.old q < rows.now.prime }
    requires coefficient { c < rows.now.prime }
    ensures { (q : ℕ) → q < length row.old → slice_index row.new q ≡ (slice_index row.old q + (rows.now.prime - c) * entry rows.now.entries f q) % rows.now.prime }
{
    let p = rows.field().prime();
    for q in 0..rows.cols() {
        row[q as usize] = lessened(row[q as usize], c, rows.at(f, q), p);
    }
}

/// Makes a row 0 in a column in which row f of a matrix is 1, and keeps its class modulo their span.
fn clear(rows: &Matrix, f: u32, at: usize, row: &mut [u16])
    requires inside { f < rows.now.row_count }
    requires width { length row.old ≡ rows.now.column_count }
    requires residues { (q : ℕ) → q < length row.old → slice_index row.old q < rows.now.prime }
    ensures residues { (q : ℕ) → q < length row.old → slice_index row.new q < rows.now.prime }
    ensures congruent { IsCongruent rows.now.prime rows.now.row_count rows.now.column_count (entry rows.now.entries) (λ q. slice_index row.new q) (λ q. slice_index row.old q) }
{
    let _ = rows.field();
    if at < row.len() && row[at] != 0 {
        let c = row[at];
        take_off(rows, f, c, row);
    }
}

/// The first column from `from` on in which a row is not 0, or the number of columns.
fn next_entry(rows: &Matrix, f: u32, from: usize) -> usize
    requires { f < rows.now.row_count }
{
    for q in from..rows.cols() as usize {
        if rows.at(f, q as u32) != 0 {
            return q;
        }
    }
    rows.cols() as usize
}

/// Takes multiples of reduced rows from a row, so that it is 0 where one of them has its first entry.
fn reduce_by(rows: &Matrix, row: &mut [u16])
    requires width { length row.old ≡ rows.now.column_count }
    requires residues { (q : ℕ) → q < length row.old → slice_index row.old q < rows.now.prime }
    ensures { IsCongruent rows.now.prime rows.now.row_count rows.now.column_count (entry rows.now.entries) (λ q. slice_index row.new q) (λ q. slice_index row.old q) }
{
    let mut at = 0;
    for f in 0..rows.rows() {
        at = next_entry(rows, f, at);
        clear(rows, f, at, row);
    }
}

/// Whether all are 0.
fn is_zero(row: &[u16]) -> bool
    ensures { IsTrue result ↔ ((q : ℕ) → q < length row.now → slice_index row.now q ≡ 0) }
{
    row.iter().all(|x| *x == 0)
}

/// Whether nothing is left of a row when multiples of reduced rows are taken from it: it is then in their span.
pub(crate) fn is_spanned(rows: &Matrix, row: &mut [u16]) -> bool
    requires width { length row.old ≡ rows.now.column_count }
    requires residues { (q : ℕ) → q < length row.old → slice_index row.old q < rows.now.prime }
    ensures { result ≡ true → InSpan rows.now.prime rows.now.row_count rows.now.column_count (entry rows.now.entries) (λ q. slice_index row.old q) }
{
    let _ = rows.field().prime();
    reduce_by(rows, row);
    is_zero(row)
}
