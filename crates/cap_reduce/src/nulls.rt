// Null rows: the rows x with x·M = 0.
ghost use Rattle.std.specs.Prelude.{◌≡◌, ◌≢◌, ℕ, ◌+◌, ◌-◌, ◌*◌, ◌%◌, ◌<◌, ◌≤◌, ◌==◌, nat_lt, if◌then◌else◌, length, slice_index};
ghost use Rattle.cap_matrix.specs.Reduced.{IsReducedBy};
ghost use Rattle.cap_matrix.specs.Grid.{entry};
ghost use Rattle.cap_reduce.specs.Answers.{IsNullRows};
ghost use Rattle.cap_reduce.specs.Flat.{cell};
ghost use Rattle.cap_reduce.specs.NullTable.{IsNullTableMade, null_entry};

use crate::elimination::reduce_flat;
use crate::scan::scan_leads;
use cap_field::Field;
use cap_matrix::{Matrix, MatrixFault};
use std::alloc::Global;

/// Writes one row of the transpose with its columns in reverse order: column `row` of the cells, read upwards.
#[tactic(auto, using(std::proofs::lemmas::Nat::rows))]
fn turn_row(turned: &mut [u16], cells: &[u16], rows: usize, cols: usize, row: usize)
    requires size { length cells.now ≡ rows * cols }
    requires turned_size { length turned.old ≡ cols * rows }
    requires within { row < cols }
    ensures turned { (c : ℕ) → c < rows → cell turned.new rows row c ≡ cell cells.now cols (rows - 1 - c) row }
    ensures others { (i c : ℕ) → c < rows → i ≢ row → cell turned.new rows i c ≡ cell turned.old rows i c }
{
    for c in 0..rows {
        turned[row * rows + c] = cells[(rows - 1 - c) * cols + row];
    }
}

/// Writes the transpose with its columns in reverse order.
#[tactic(auto, using(std::proofs::lemmas::Nat::rows))]
fn turn(turned: &mut [u16], cells: &[u16], rows: usize, cols: usize)
    requires size { length cells.now ≡ rows * cols }
    requires turned_size { length turned.old ≡ cols * rows }
    ensures { (i c : ℕ) → i < cols → c < rows → cell turned.new rows i c ≡ cell cells.now cols (rows - 1 - c) i }
{
    for i in 0..cols {
        turn_row(turned, cells, rows, cols, i);
    }
}

/// Writes the null row of a free column.
#[tactic(auto, using(std::proofs::lemmas::Nat::rows))]
fn write_null_row(
    out: &mut [u16],
    count: usize,
    row: usize,
    cells: &[u16],
    rank: usize,
    cols: usize,
    place: &[u16],
    free: usize,
    p: u16,
)
    requires size { length out.old ≡ count * cols }
    requires within { row < count }
    requires cells_size { rank * cols ≤ length cells.now }
    requires places { length place.now ≡ cols }
    requires free_within { free < cols }
    requires big { 2 ≤ p }
    requires residues { (i c : ℕ) → i < rank → c < cols → cell cells.now cols i c < p }
    ensures written { (c : ℕ) → c < cols → cell out.new cols row c ≡ null_entry p rank cols (cell cells.now cols) (λ j. slice_index place.now j) free c }
    ensures others { (i c : ℕ) → c < cols → i ≢ row → cell out.new cols i c ≡ cell out.old cols i c }
{
    for c in 0..cols {
        let column = cols - 1 - c;
        let at = place[column] as usize;
        out[row * cols + c] = null_cell(cells, rank, cols, at, column, free, p);
    }
}

/// One cell of the null row of a free column: `at` is the place of the cell's column among the leads.
#[tactic(auto, using(std::proofs::lemmas::Nat::rows))]
pub(crate) fn null_cell(
    cells: &[u16],
    rank: usize,
    cols: usize,
    at: usize,
    column: usize,
    free: usize,
    p: u16,
) -> u16
    requires cells_size { rank * cols ≤ length cells.now }
    requires free_within { free < cols }
    requires big { 2 ≤ p }
    requires residues { (i c : ℕ) → i < rank → c < cols → cell cells.now cols i c < p }
    ensures { result ≡ (if nat_lt at rank then (p - cell cells.now cols at free) % p else (if column == free then 1 else 0)) }
{
    if at < rank {
        let x = cells[at * cols + free];
        if x == 0 { 0 } else { p - x }
    } else if column == free {
        1
    } else {
        0
    }
}

/// Writes all null rows, the last free column first.
#[tactic(auto, using(std::proofs::lemmas::Nat::rows))]
fn write_null_rows(
    out: &mut [u16],
    cells: &[u16],
    rank: usize,
    cols: usize,
    place: &[u16],
    free: &[u16],
    p: u16,
)
    requires few { rank ≤ cols }
    requires size { length out.old ≡ (cols - rank) * cols }
    requires cells_size { rank * cols ≤ length cells.now }
    requires places { length place.now ≡ cols }
    requires frees { length free.now ≡ cols }
    requires inside { (j : ℕ) → j < cols - rank → slice_index free.now j < cols }
    requires big { 2 ≤ p }
    requires residues { (i c : ℕ) → i < rank → c < cols → cell cells.now cols i c < p }
    ensures { (i c : ℕ) → i < cols - rank → c < cols
        → cell out.new cols i c ≡ null_entry p rank cols (cell cells.now cols) (λ j. slice_index place.now j) (slice_index free.now (cols - rank - 1 - i)) c }
{
    let count = cols - rank;
    for i in 0..count {
        let column = free[count - 1 - i] as usize;
        write_null_row(out, count, i, cells, rank, cols, place, column, p);
    }
}

/// The null rows by the reduced form of the transpose with its columns in reverse order.
fn null_rows_of_reduced(
    alloc: Global,
    field: Field,
    cells: &[u16],
    rank: u32,
    cols: u32,
) -> Result<Matrix, MatrixFault>
    requires size { rank * cols ≤ length cells.now }
    requires few { rank ≤ cols }
    requires short { cols ≤ 2048 }
    requires reduced { (lead : ℕ → ℕ) × IsReducedBy field rank cols (cell cells.now cols) lead }
    ensures { (lead : ℕ → ℕ) × IsNullTableMade field rank cols (cell cells.now cols) lead result }
{
    let mut places = [0u16; 2048];
    let mut frees = [0u16; 2048];
    let (r, n) = (rank as usize, cols as usize);
    let place = &mut places[..n];
    let free = &mut frees[..n];
    scan_leads(cells, r, n, n, place, free);
    let mut out = Matrix::zero(alloc, field, cols - rank, cols)?.into_cells();
    write_null_rows(&mut out, cells, r, n, place, free, field.prime() as u16);
    Ok(Matrix::from_cells(field, cols - rank, cols, out))
}

/// The reduced matrix of the rows x with x·m = 0, as many columns as m has rows.
pub fn null_rows(alloc: Global, m: &Matrix) -> Result<Matrix, MatrixFault>
    ensures { IsNullRows m.now result }
{
    let rows = m.rows() as usize;
    let cols = m.cols() as usize;
    let field = m.field();
    let mut turned = vec![in alloc; 0u16; rows * cols]?;
    turn(&mut turned, m.cells(), rows, cols);
    let rank = reduce_flat(&mut turned, field, cols, rows);
    null_rows_of_reduced(alloc, field, &turned, rank as u32, rows as u32)
}
