// Rows outside the span of a matrix, and the columns that show it.
ghost use Rattle.std.specs.Prelude.{◌≡◌, ◌≢◌, ℕ, ◌*◌, ◌%◌, ◌<◌, ◌≤◌, length, slice_index, IfOk, MatchOption};
ghost use Rattle.cap_matrix.specs.Grid.{total};
ghost use Rattle.cap_matrix.specs.Reduced.{IsInSpan, IsObstruction};
ghost use Rattle.cap_reduce.specs.Flat.{cell};
ghost use Rattle.cap_reduce.specs.NullTable.{null_value, IsNullColumn};

use crate::elimination::reduce_flat;
use crate::nulls::null_cell;
use crate::scan::scan_leads;
use cap_matrix::{Matrix, NoMemory};
use cap_names::Items;
use std::alloc::Global;

/// Writes the column that is 1 in a free column, 0 in the others, and 0 at each row of the reduced form.
#[tactic(auto, using(std::proofs::lemmas::Nat::rows))]
fn write_null_column(
    y: &mut [u16],
    cells: &[u16],
    rank: usize,
    cols: usize,
    place: &[u16],
    free: usize,
    p: u16,
)
    requires width { length y.old ≡ cols }
    requires cells_size { rank * cols ≤ length cells.now }
    requires places { length place.now ≡ cols }
    requires free_within { free < cols }
    requires big { 2 ≤ p }
    requires residues { (i c : ℕ) → i < rank → c < cols → cell cells.now cols i c < p }
    ensures { (c : ℕ) → c < cols → slice_index y.new c ≡ null_value p rank (cell cells.now cols) (λ j. slice_index place.now j) free c }
{
    for c in 0..cols {
        y[c] = null_cell(cells, rank, cols, place[c] as usize, c, free, p);
    }
}

/// The sum of the products of the entries of a row and a column.
fn dot(v: &[u16], y: &[u16], count: usize) -> u32
    requires row { length v.now ≡ count }
    requires column { length y.now ≡ count }
    requires short { count ≤ 2048 }
    requires row_small { (c : ℕ) → c < count → slice_index v.now c ≤ 250 }
    requires column_small { (c : ℕ) → c < count → slice_index y.now c ≤ 250 }
    ensures { result ≡ total count (λ c. slice_index v.now c * slice_index y.now c) }
{
    let mut sum = 0u32;
    for c in 0..count {
        sum += v[c] as u32 * y[c] as u32;
    }
    sum
}

/// Finds a free column whose null column has a product with `v` that is not 0, and leaves that null column in `y`.
fn find_obstruction(
    y: &mut [u16],
    cells: &[u16],
    rank: usize,
    cols: usize,
    place: &[u16],
    v: &[u16],
    p: u16,
) -> Option<usize>
    requires width { length y.old ≡ cols }
    requires cells_size { rank * cols ≤ length cells.now }
    requires places { length place.now ≡ cols }
    requires short { cols ≤ 2048 }
    requires big { 2 ≤ p }
    requires high { p ≤ 251 }
    requires residues { (i c : ℕ) → i < rank → c < cols → cell cells.now cols i c < p }
    requires row { length v.now ≡ cols }
    requires row_small { (c : ℕ) → c < cols → slice_index v.now c < p }
    ensures { MatchOption result
        ((f : ℕ) → f < cols → rank ≤ slice_index place.now f
        → total cols (λ c. slice_index v.now c * null_value p rank (cell cells.now cols) (λ j. slice_index place.now j) f c) % p ≡ 0)
        (λ f. IsNullColumn p rank cols (cell cells.now cols) (λ j. slice_index place.now j) (λ c. slice_index v.now c) f y.new) }
{
    for f in 0..cols {
        if place[f] as usize >= rank {
            write_null_column(y, cells, rank, cols, place, f, p);
            if dot(v, y, cols) % p as u32 != 0 {
                return Some(f);
            }
        }
    }
    None
}

/// A column y with m·y = 0 and v·y not 0, or none where v is in the span of the rows of m.
pub(crate) fn obstruction(
    alloc: Global,
    m: &Matrix,
    v: &[u16],
) -> Result<Option<Items<u16>>, NoMemory>
    requires width { length v.now ≡ m.now.column_count }
    requires residues { (j : ℕ) → j < length v.now → slice_index v.now j < m.now.prime }
    ensures { IfOk result (λ o. MatchOption o (IsInSpan m.now v.now) (λ y. IsObstruction m.now v.now y)) }
{
    let rows = m.rows() as usize;
    let cols = m.cols() as usize;
    let field = m.field();
    let mut cells = m.cells().to_vec(alloc)?;
    let rank = reduce_flat(&mut cells, field, rows, cols);
    let mut places = [0u16; 2048];
    let mut frees = [0u16; 2048];
    let place = &mut places[..cols];
    scan_leads(&cells, rank, cols, cols, place, &mut frees[..cols]);
    let mut y = vec![in alloc; 0u16; cols]?;
    match find_obstruction(&mut y, &cells, rank, cols, place, v, field.prime() as u16) {
        Some(_) => Ok(Some(Items::new(y))),
        None => Ok(None),
    }
}
