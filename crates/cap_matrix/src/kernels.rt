// The loops, on slices of cells. A flat buffer has its rows one after another.
ghost use Rattle.std.specs.Prelude.{◌≡◌, ◌≢◌, ◌^◌, ℕ, ◌+◌, ◌-◌, ◌*◌, ◌/◌, ◌%◌, ◌<◌, ◌≤◌, ◌++◌, nat_lt, ◌==◌, if◌then◌else◌, length, slice_index};
ghost use Rattle.cap_matrix.specs.Grid.{total};

use cap_field::reduced;

/// The row and column counts of a flat buffer.
#[derive(Clone, Copy)]
pub(crate) struct Shape {
    pub(crate) rows: usize,
    pub(crate) cols: usize,
}

/// Adds a multiple of the cells from `at` on to sums.
fn add_multiple(sums: &mut [u32], cells: &[u16], at: usize, factor: u32)
    requires within { at + length sums.old ≤ length cells.now }
    requires room { (j : ℕ) → j < length sums.old → slice_index sums.old j + factor * slice_index cells.now (at + j) < 2 ^ 32 }
    ensures { (j : ℕ) → j < length sums.old → slice_index sums.new j ≡ slice_index sums.old j + factor * slice_index cells.now (at + j) }
{
    for j in 0..sums.len() {
        sums[j] += factor * cells[at + j] as u32;
    }
}

/// The sums of products of one row of a flat buffer with the columns of another.
#[tactic(auto, using(std::proofs::lemmas::Nat::rows))]
fn sum_row(sums: &mut [u32], a: &[u16], row: usize, inner: usize, b: &[u16], cols: usize)
    requires width { length sums.old ≡ cols }
    requires left { row * inner + inner ≤ length a.now }
    requires right { length b.now ≡ inner * cols }
    requires short { inner ≤ 2048 }
    requires left_small { (k : ℕ) → slice_index a.now k ≤ 250 }
    requires right_small { (k : ℕ) → slice_index b.now k ≤ 250 }
    ensures { (j : ℕ) → j < cols → slice_index sums.new j ≡ total inner (λ k. slice_index a.now (row * inner + k) * slice_index b.now (k * cols + j)) }
{
    for s in sums.iter_mut() {
        *s = 0;
    }
    for k in 0..inner {
        let factor = a[row * inner + k] as u32;
        add_multiple(sums, b, k * cols, factor);
    }
}

/// Writes sums modulo p to one row of a flat buffer.
#[tactic(auto, using(std::proofs::lemmas::Nat::rows))]
fn store_row(out: &mut [u16], rows: usize, cols: usize, row: usize, sums: &[u32], p: u32)
    requires size { length out.old ≡ rows * cols }
    requires within { row < rows }
    requires width { length sums.now ≡ cols }
    requires low { 2 ≤ p }
    requires high { p ≤ 251 }
    ensures stored { (c : ℕ) → c < cols → slice_index out.new (row * cols + c) ≡ slice_index sums.now c % p }
    ensures others { (i c : ℕ) → c < cols → i ≢ row → slice_index out.new (i * cols + c) ≡ slice_index out.old (i * cols + c) }
{
    for c in 0..cols {
        out[row * cols + c] = (sums[c] % p) as u16;
    }
}

/// The product of two flat buffers, row by row, with space for the sums of one row.
#[tactic(auto, using(std::proofs::lemmas::Nat::rows))]
pub(crate) fn multiply(
    out: &mut [u16],
    sums: &mut [u32],
    a: &[u16],
    shape: Shape,
    b: &[u16],
    cols: usize,
    p: u32,
)
    requires size { length out.old ≡ shape.rows * cols }
    requires left { length a.now ≡ shape.rows * shape.cols }
    requires right { length b.now ≡ shape.cols * cols }
    requires short { shape.cols ≤ 2048 }
    requires width { length sums.old ≡ cols }
    requires low { 2 ≤ p }
    requires high { p ≤ 251 }
    requires left_small { (k : ℕ) → slice_index a.now k ≤ 250 }
    requires right_small { (k : ℕ) → slice_index b.now k ≤ 250 }
    ensures { (i j : ℕ) → i < shape.rows → j < cols
        → slice_index out.new (i * cols + j) ≡ total shape.cols (λ k. slice_index a.now (i * shape.cols + k) * slice_index b.now (k * cols + j)) % p }
{
    for i in 0..shape.rows {
        sum_row(sums, a, i, shape.cols, b, cols);
        store_row(out, shape.rows, cols, i, sums, p);
    }
}

/// Writes ones on the diagonal of a square of zeros with `n` rows.
#[tactic(auto, using(std::proofs::lemmas::Nat::rows))]
pub(crate) fn write_ones(cells: &mut [u16], n: usize)
    requires size { length cells.old ≡ n * n }
    requires zeros { (k : ℕ) → slice_index cells.old k ≡ 0 }
    ensures { (i j : ℕ) → i < n → j < n → slice_index cells.new (i * n + j) ≡ (if i == j then 1 else 0) }
{
    for i in 0..n {
        cells[i * n + i] = 1;
    }
}

/// Adds residues, cell by cell.
pub(crate) fn add_cells(sums: &mut [u16], b: &[u16], p: u16)
    requires size { length b.now ≡ length sums.old }
    requires high { p ≤ 251 }
    requires left_small { (k : ℕ) → k < length sums.old → slice_index sums.old k < p }
    requires right_small { (k : ℕ) → k < length sums.old → slice_index b.now k < p }
    ensures { (k : ℕ) → k < length sums.old → slice_index sums.new k ≡ (slice_index sums.old k + slice_index b.now k) % p }
{
    for k in 0..sums.len() {
        let sum = sums[k] + b[k];
        sums[k] = if sum < p { sum } else { sum - p };
    }
}

/// Multiples of residues. `m` is 65536 / p.
pub(crate) fn scale_cells(out: &mut [u16], a: &[u16], factor: u16, p: u16, m: u16)
    requires size { length a.now ≡ length out.old }
    requires low { 2 ≤ p }
    requires high { p ≤ 251 }
    requires ratio { m ≡ 65536 / p }
    requires factor { factor ≤ 250 }
    requires small { (k : ℕ) → slice_index a.now k ≤ 250 }
    ensures { (k : ℕ) → k < length out.old → slice_index out.new k ≡ (factor * slice_index a.now k) % p }
{
    for k in 0..out.len() {
        out[k] = reduced(factor * a[k], p, m);
    }
}

/// The cells of one slice, then those of another.
pub(crate) fn join(out: &mut [u16], a: &[u16], b: &[u16])
    requires { length out.old ≡ length a.now + length b.now }
    ensures { out.new ≡ a.now ++ b.now }
{
    out[..a.len()].copy_from_slice(a);
    out[a.len()..].copy_from_slice(b);
}

/// Each row of one flat buffer with that of another right of it.
#[tactic(auto, using(std::proofs::lemmas::Nat::rows))]
pub(crate) fn join_rows(
    out: &mut [u16],
    a: &[u16],
    b: &[u16],
    rows: usize,
    left: usize,
    right: usize,
)
    requires size { length out.old ≡ rows * (left + right) }
    requires left_size { length a.now ≡ rows * left }
    requires right_size { length b.now ≡ rows * right }
    requires narrow { left + right ≤ 4096 }
    ensures { (i j : ℕ) → i < rows → j < left + right
        → slice_index out.new (i * (left + right) + j) ≡ (if nat_lt j left then slice_index a.now (i * left + j) else slice_index b.now (i * right + (j - left))) }
{
    let width = left + right;
    for i in 0..rows {
        join(
            &mut out[i * width..i * width + width],
            &a[i * left..i * left + left],
            &b[i * right..i * right + right],
        );
    }
}

/// One column of a flat buffer with `cols` columns.
#[tactic(auto, using(std::proofs::lemmas::Nat::rows))]
fn read_column(out: &mut [u16], a: &[u16], cols: usize, col: usize)
    requires size { length a.now ≡ length out.old * cols }
    requires column { col < cols }
    ensures { (i : ℕ) → i < length out.old → slice_index out.new i ≡ slice_index a.now (i * cols + col) }
{
    for i in 0..out.len() {
        out[i] = a[i * cols + col];
    }
}

/// Rows for columns.
#[tactic(auto, using(std::proofs::lemmas::Nat::rows))]
pub(crate) fn transpose(out: &mut [u16], a: &[u16], rows: usize, cols: usize)
    requires out_size { length out.old ≡ cols * rows }
    requires size { length a.now ≡ rows * cols }
    ensures { (i j : ℕ) → i < cols → j < rows → slice_index out.new (i * rows + j) ≡ slice_index a.now (j * cols + i) }
{
    for i in 0..cols {
        read_column(&mut out[i * rows..i * rows + rows], a, cols, i);
    }
}

/// The block of the given shape of another flat buffer, from its row `row` and column `col` on.
#[tactic(auto, using(std::proofs::lemmas::Nat::rows))]
pub(crate) fn copy_block(
    out: &mut [u16],
    shape: Shape,
    a: &[u16],
    a_shape: Shape,
    row: usize,
    col: usize,
)
    requires out_size { length out.old ≡ shape.rows * shape.cols }
    requires size { length a.now ≡ a_shape.rows * a_shape.cols }
    requires rows { row + shape.rows ≤ a_shape.rows }
    requires columns { col + shape.cols ≤ a_shape.cols }
    ensures { (i j : ℕ) → i < shape.rows → j < shape.cols
        → slice_index out.new (i * shape.cols + j) ≡ slice_index a.now ((row + i) * a_shape.cols + (col + j)) }
{
    let width = shape.cols;
    for i in 0..shape.rows {
        let from = (row + i) * a_shape.cols + col;
        out[i * width..i * width + width].copy_from_slice(&a[from..from + width]);
    }
}

/// A row of a Kronecker product: for each cell of one row the multiple of another row by it.
#[tactic(auto, using(std::proofs::lemmas::Nat::rows))]
fn kron_row(out: &mut [u16], a: &[u16], b: &[u16], p: u16, m: u16)
    requires size { length out.old ≡ length a.now * length b.now }
    requires low { 2 ≤ p }
    requires high { p ≤ 251 }
    requires ratio { m ≡ 65536 / p }
    requires left_small { (k : ℕ) → slice_index a.now k ≤ 250 }
    requires right_small { (k : ℕ) → slice_index b.now k ≤ 250 }
    ensures { (i j : ℕ) → i < length a.now → j < length b.now → slice_index out.new (i * length b.now + j) ≡ (slice_index a.now i * slice_index b.now j) % p }
{
    let width = b.len();
    for i in 0..a.len() {
        scale_cells(&mut out[i * width..i * width + width], b, a[i], p, m);
    }
}

/// Rows of a Kronecker product: those of one row with each row of a flat buffer.
#[tactic(auto, using(std::proofs::lemmas::Nat::rows))]
fn kron_rows(out: &mut [u16], a: &[u16], b: &[u16], shape: Shape, p: u16, m: u16)
    requires size { length out.old ≡ shape.rows * (length a.now * shape.cols) }
    requires right_size { length b.now ≡ shape.rows * shape.cols }
    requires left_narrow { length a.now ≤ 2048 }
    requires right_narrow { shape.cols ≤ 2048 }
    requires low { 2 ≤ p }
    requires high { p ≤ 251 }
    requires ratio { m ≡ 65536 / p }
    requires left_small { (k : ℕ) → slice_index a.now k ≤ 250 }
    requires right_small { (k : ℕ) → slice_index b.now k ≤ 250 }
    ensures { (i j : ℕ) → i < shape.rows → j < length a.now * shape.cols
        → slice_index out.new (i * (length a.now * shape.cols) + j)
        ≡ (slice_index a.now (j / shape.cols) * slice_index b.now (i * shape.cols + j % shape.cols)) % p }
{
    let cols = shape.cols;
    let width = a.len() * cols;
    for i in 0..shape.rows {
        kron_row(
            &mut out[i * width..i * width + width],
            a,
            &b[i * cols..i * cols + cols],
            p,
            m,
        );
    }
}

/// The Kronecker product of two flat buffers. `m` is 65536 / p.
#[tactic(auto, using(std::proofs::lemmas::Nat::rows))]
pub(crate) fn kron(
    out: &mut [u16],
    a: &[u16],
    a_shape: Shape,
    b: &[u16],
    shape: Shape,
    p: u16,
    m: u16,
)
    requires size { length out.old ≡ a_shape.rows * (shape.rows * (a_shape.cols * shape.cols)) }
    requires left_size { length a.now ≡ a_shape.rows * a_shape.cols }
    requires right_size { length b.now ≡ shape.rows * shape.cols }
    requires left_narrow { a_shape.cols ≤ 2048 }
    requires right_narrow { shape.cols ≤ 2048 }
    requires right_short { shape.rows ≤ 2048 }
    requires low { 2 ≤ p }
    requires high { p ≤ 251 }
    requires ratio { m ≡ 65536 / p }
    requires left_small { (k : ℕ) → slice_index a.now k ≤ 250 }
    requires right_small { (k : ℕ) → slice_index b.now k ≤ 250 }
    ensures { (i j : ℕ) → i < a_shape.rows * shape.rows → j < a_shape.cols * shape.cols
        → slice_index out.new (i * (a_shape.cols * shape.cols) + j)
        ≡ (slice_index a.now (i / shape.rows * a_shape.cols + j / shape.cols) * slice_index b.now (i % shape.rows * shape.cols + j % shape.cols)) % p }
{
    let wide = a_shape.cols;
    let block = shape.rows * (wide * shape.cols);
    for i in 0..a_shape.rows {
        kron_rows(
            &mut out[i * block..i * block + block],
            &a[i * wide..i * wide + wide],
            b,
            shape,
            p,
            m,
        );
    }
}
