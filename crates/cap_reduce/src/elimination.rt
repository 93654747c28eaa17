// Row reduction, in place, in one flat buffer.
ghost use Rattle.std.specs.Prelude.{◌≡◌, ◌≢◌, ℕ, ◌+◌, ◌-◌, ◌*◌, ◌/◌, ◌%◌, ◌^◌, ◌<◌, ◌≤◌, length, slice_index, MatchOption, true};
ghost use Rattle.cap_field.specs.Residue.{is_tabled};
ghost use Rattle.cap_reduce.specs.Flat.{cell, IsColumnSoFar};
ghost use Rattle.cap_reduce.specs.Cleared.{IsCleared, IsPivoted, IsSwapped, IsSameSpan};

use cap_field::{Field, reduced};

/// The first row from `from` on whose entry in column `col` is not 0.
#[tactic(auto, using(std::proofs::lemmas::Nat::rows))]
pub(crate) fn pivot_row(
    cells: &[u16],
    rows: usize,
    cols: usize,
    from: usize,
    col: usize,
) -> Option<usize>
    requires size { length cells.now ≡ rows * cols }
    requires column { col < cols }
    ensures { MatchOption result ((i : ℕ) → from ≤ i → i < rows → cell cells.now cols i col ≡ 0)
        (λ k. (from ≤ k) × (k < rows) × (cell cells.now cols k col ≢ 0)) }
{
    for i in from..rows {
        if cells[i * cols + col] != 0 {
            return Some(i);
        }
    }
    None
}

/// Changes the places of two rows.
#[tactic(auto, using(std::proofs::lemmas::Nat::rows))]
fn swap_rows(cells: &mut [u16], rows: usize, cols: usize, a: usize, b: usize)
    requires size { length cells.old ≡ rows * cols }
    requires order { a < b }
    requires within { b < rows }
    ensures { IsSwapped rows cols (cell cells.old cols) (cell cells.new cols) a b }
{
    for c in 0..cols {
        let x = cells[a * cols + c];
        let y = cells[b * cols + c];
        cells[a * cols + c] = y;
        cells[b * cols + c] = x;
    }
}

/// Multiplies a row, in numbers of 16 bits. `m` is 2 ^ 16 / p.
#[tactic(auto, using(std::proofs::lemmas::Nat::rows))]
fn scale_row(cells: &mut [u16], rows: usize, cols: usize, row: usize, factor: u16, p: u16, m: u16)
    requires size { length cells.old ≡ rows * cols }
    requires within { row < rows }
    requires low { 2 ≤ p }
    requires high { p ≤ 251 }
    requires ratio { m ≡ 65536 / p }
    requires factor { factor < p }
    requires small { (c : ℕ) → c < cols → cell cells.old cols row c < p }
    ensures scaled { (c : ℕ) → c < cols → cell cells.new cols row c ≡ (cell cells.old cols row c * factor) % p }
    ensures others { (i c : ℕ) → c < cols → i ≢ row → cell cells.new cols i c ≡ cell cells.old cols i c }
{
    for c in 0..cols {
        let x = cells[row * cols + c];
        cells[row * cols + c] = reduced(x * factor, p, m);
    }
}

/// Adds a multiple of a row that stands elsewhere, and is 0 before a column, to a row, in numbers of 16 bits.
/// `m` is 2 ^ 16 / p.
#[tactic(auto, using(std::proofs::lemmas::Nat::rows))]
fn add_row(
    cells: &mut [u16],
    rows: usize,
    cols: usize,
    to: usize,
    source: &[u16],
    from: usize,
    factor: u16,
    p: u16,
    m: u16,
)
    requires size { length cells.old ≡ rows * cols }
    requires width { length source.now ≡ cols }
    requires to_within { to < rows }
    requires low { 2 ≤ p }
    requires high { p ≤ 251 }
    requires ratio { m ≡ 65536 / p }
    requires factor { factor ≤ p }
    requires start { from ≤ cols }
    requires before { (c : ℕ) → c < from → slice_index source.now c ≡ 0 }
    requires source_small { (c : ℕ) → c < cols → slice_index source.now c < p }
    requires to_small { (c : ℕ) → c < cols → cell cells.old cols to c < p }
    ensures added { (c : ℕ) → c < cols → cell cells.new cols to c ≡ (cell cells.old cols to c + factor * slice_index source.now c) % p }
    ensures others { (i c : ℕ) → c < cols → i ≢ to → cell cells.new cols i c ≡ cell cells.old cols i c }
{
    for c in from..cols {
        let y = cells[to * cols + c];
        cells[to * cols + c] = reduced(y + factor * source[c], p, m);
    }
}

/// Copies a row.
#[tactic(auto, using(std::proofs::lemmas::Nat::rows))]
fn copy_row(target: &mut [u16], cells: &[u16], rows: usize, cols: usize, row: usize)
    requires size { length cells.now ≡ rows * cols }
    requires width { length target.old ≡ cols }
    requires within { row < rows }
    ensures { (c : ℕ) → c < cols → slice_index target.new c ≡ cell cells.now cols row c }
{
    for c in 0..cols {
        target[c] = cells[row * cols + c];
    }
}

/// Brings a row up to the place of another that is not below it.
fn bring_up(cells: &mut [u16], rows: usize, cols: usize, to: usize, from: usize)
    requires size { length cells.old ≡ rows * cols }
    requires order { to ≤ from }
    requires within { from < rows }
    ensures { IsSwapped rows cols (cell cells.old cols) (cell cells.new cols) to from }
{
    if to < from {
        swap_rows(cells, rows, cols, to, from);
    }
}

/// Takes multiples of a row, whose entry in a column is 1, from all others, so that theirs there are 0.
#[tactic(auto, using(std::proofs::lemmas::Nat::rows))]
fn clear_column(
    cells: &mut [u16],
    rows: usize,
    cols: usize,
    row: usize,
    source: &[u16],
    col: usize,
    p: u16,
    m: u16,
)
    requires size { length cells.old ≡ rows * cols }
    requires width { length source.now ≡ cols }
    requires copied { (c : ℕ) → c < cols → slice_index source.now c ≡ cell cells.old cols row c }
    requires before { (c : ℕ) → c < col → slice_index source.now c ≡ 0 }
    requires within { row < rows }
    requires column { col < cols }
    requires low { 2 ≤ p }
    requires high { p ≤ 251 }
    requires ratio { m ≡ 65536 / p }
    requires residues { (i c : ℕ) → i < rows → c < cols → cell cells.old cols i c < p }
    ensures { IsColumnSoFar p cols cells.old cells.new row col rows }
{
    for i in 0..rows {
        let entry = cells[i * cols + col];
        if i != row && entry != 0 {
            add_row(cells, rows, cols, i, source, col, p - entry, p, m);
        }
    }
}

/// Makes an entry 1, and the others of its column 0.
#[tactic(auto, using(std::proofs::lemmas::Nat::rows))]
fn pivot(
    cells: &mut [u16],
    space: &mut [u16],
    field: Field,
    rows: usize,
    cols: usize,
    row: usize,
    col: usize,
)
    requires size { length cells.old ≡ rows * cols }
    requires width { length space.old ≡ cols }
    requires within { row < rows }
    requires column { col < cols }
    requires some { cell cells.old cols row col ≢ 0 }
    requires before { (c : ℕ) → c < col → cell cells.old cols row c ≡ 0 }
    requires residues { (i c : ℕ) → i < rows → c < cols → cell cells.old cols i c < field }
    ensures big { 2 ≤ field }
    ensures pivoted { (b : ℕ) × IsPivoted field rows cols (cell cells.old cols) (cell cells.new cols) row col b }
{
    let p = field.prime() as u16;
    let m = (65536 / field.prime()) as u16;
    let factor = field.inv(cells[row * cols + col]);
    scale_row(cells, rows, cols, row, factor, p, m);
    copy_row(space, cells, rows, cols, row);
    clear_column(cells, rows, cols, row, space, col, p, m);
}

/// Clears one more column, and answers how many rows are reduced then.
fn clear_next(
    cells: &mut [u16],
    space: &mut [u16],
    field: Field,
    rows: usize,
    cols: usize,
    done: usize,
    col: usize,
) -> usize
    requires size { length cells.old ≡ rows * cols }
    requires width { length space.old ≡ cols }
    requires column { col < cols }
    requires cleared { (lead : ℕ → ℕ) × IsCleared field rows cols (cell cells.old cols) lead done col }
    ensures span { IsSameSpan field rows cols (cell cells.old cols) (cell cells.new cols) }
    ensures cleared { (lead : ℕ → ℕ) × IsCleared field rows cols (cell cells.new cols) lead result (col + 1) }
{
    match pivot_row(cells, rows, cols, done, col) {
        None => done,
        Some(found) => {
            bring_up(cells, rows, cols, done, found);
            pivot(cells, space, field, rows, cols, done, col);
            done + 1
        }
    }
}

/// Reduces the rows of a flat buffer in its first `front` columns, with space for one row, and answers how many are not 0 there.
fn reduce_with(
    cells: &mut [u16],
    space: &mut [u16],
    field: Field,
    rows: usize,
    cols: usize,
    front: usize,
) -> usize
    requires size { length cells.old ≡ rows * cols }
    requires width { length space.old ≡ cols }
    requires within { front ≤ cols }
    requires residues { (i c : ℕ) → i < rows → c < cols → cell cells.old cols i c < field }
    ensures span { IsSameSpan field rows cols (cell cells.old cols) (cell cells.new cols) }
    ensures cleared { (lead : ℕ → ℕ) × IsCleared field rows cols (cell cells.new cols) lead result front }
{
    let mut done = 0;
    for col in 0..front {
        done = clear_next(cells, space, field, rows, cols, done, col);
    }
    done
}

/// Reduces the rows of a flat buffer in its first `front` columns, and answers how many are not 0 there.
pub(crate) fn reduce_front(
    cells: &mut [u16],
    field: Field,
    rows: usize,
    cols: usize,
    front: usize,
) -> usize
    requires size { length cells.old ≡ rows * cols }
    requires narrow { cols ≤ 4096 }
    requires within { front ≤ cols }
    requires residues { (i c : ℕ) → i < rows → c < cols → cell cells.old cols i c < field }
    ensures span { IsSameSpan field rows cols (cell cells.old cols) (cell cells.new cols) }
    ensures cleared { (lead : ℕ → ℕ) × IsCleared field rows cols (cell cells.new cols) lead result front }
{
    let mut space = [0u16; 4096];
    reduce_with(cells, &mut space[..cols], field, rows, cols, front)
}

/// Reduces the rows of a flat buffer, and answers how many are not 0.
pub(crate) fn reduce_flat(cells: &mut [u16], field: Field, rows: usize, cols: usize) -> usize
    requires size { length cells.old ≡ rows * cols }
    requires narrow { cols ≤ 4096 }
    requires residues { (i c : ℕ) → i < rows → c < cols → cell cells.old cols i c < field }
    ensures span { IsSameSpan field rows cols (cell cells.old cols) (cell cells.new cols) }
    ensures cleared { (lead : ℕ → ℕ) × IsCleared field rows cols (cell cells.new cols) lead result cols }
{
    reduce_front(cells, field, rows, cols, cols)
}
