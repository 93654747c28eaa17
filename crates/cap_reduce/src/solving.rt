// Systems x·M = v, and the rows that are no combination of those before them.
ghost use Rattle.std.specs.Prelude.{◌≡◌, ℕ, ◌+◌, ◌-◌, ◌*◌, ◌<◌, ◌≤◌, nat_lt, if◌then◌else◌, IfOk, MatchOption, [], length, slice_index, slice_index_or};
ghost use Rattle.cap_matrix.specs.Grid.{row_by};
ghost use Rattle.cap_matrix.specs.Reduced.{IsReducedBy};
ghost use Rattle.cap_reduce.specs.Answers.{IsGreedy, IsSolved, AreSolved};
ghost use Rattle.cap_reduce.specs.Flat.{cell};
ghost use Rattle.cap_reduce.specs.NullTable.{IsLeadList, IsSystemTable, IsNoneLeft, IsFirstLeft, AreReadOff};

use crate::elimination::{pivot_row, reduce_flat, reduce_front};
use crate::obstructed::obstruction;
use crate::scan::{scan_leads, write_transpose};
use cap_matrix::{Matrix, NoMemory};
use cap_names::Items;
use std::alloc::{AllocError, Global};

/// What a system x·m = v has.
#[derive(Drop)]
pub enum Solved {
    /// The solution that is 0 at each row in the span of the rows before it.
    Row(Items<u16>),
    /// A column y with m·y = 0 and v·y not 0: there is no solution.
    Obstruction(Items<u16>),
}

/// What the systems x·m = t have, one for each of some rows t.
#[derive(Drop)]
pub enum SolvedRows {
    /// The canonical solutions, one after the other.
    All(Items<u16>),
    /// The number of the first row that has no solution, from 0.
    Unsolved(u32),
}

/// Numbers of rows, from 0.
pub type Rows = Items<u32>;

/// The columns whose place is below `rank`, in order.
fn lead_list(
    alloc: Global,
    place: &[u16],
    count: usize,
    rank: usize,
) -> Result<Vec<u32>, AllocError>
    requires places { length place.now ≡ count }
    requires short { count ≤ 2048 }
    ensures { IfOk result (λ rows. IsLeadList rank (λ i. slice_index place.now i) count rows.items) }
{
    let mut rows = Vec::new(alloc);
    for i in 0..count {
        if (place[i] as usize) < rank {
            rows.push(i as u32)?;
        }
    }
    Ok(rows)
}

/// The rows that are not in the span of the rows before them, in order, from 0.
pub fn greedy(alloc: Global, m: &Matrix) -> Result<Rows, NoMemory>
    ensures { IfOk result (λ rows. IsGreedy m.now rows) }
{
    let rows = m.rows() as usize;
    let cols = m.cols() as usize;
    let mut table = vec![in alloc; 0u16; cols * rows]?;
    write_transpose(&mut table, rows, 0, m.cells(), rows, cols);
    let rank = reduce_flat(&mut table, m.field(), cols, rows);
    let mut places = [0u16; 2048];
    let mut frees = [0u16; 2048];
    let place = &mut places[..rows];
    scan_leads(&table, rank, rows, rows, place, &mut frees[..rows]);
    Ok(Items::new(lead_list(alloc, place, rows, rank)?))
}

/// The transpose of a matrix with some rows, which stand in a flat buffer, as further columns.
fn system_table(
    alloc: Global,
    m: &Matrix,
    rows: &[u16],
    count: usize,
) -> Result<Vec<u16>, AllocError>
    requires few { count ≤ 2048 }
    requires size { length rows.now ≡ count * m.now.column_count }
    ensures { IfOk result (λ t. IsSystemTable m.now.row_count m.now.column_count count m.now rows.now t.items) }
{
    let n = m.rows() as usize;
    let w = m.cols() as usize;
    let width = n + count;
    let mut table = vec![in alloc; 0u16; w * width]?;
    write_transpose(&mut table, width, 0, m.cells(), n, w);
    write_transpose(&mut table, width, n, rows, count, w);
    Ok(table)
}

/// The first column from `start` on that is not 0 in the rows from `rank` on.
fn first_left(table: &[u16], rows: usize, width: usize, rank: usize, start: usize) -> Option<usize>
    requires { length table.now ≡ rows * width }
    ensures { MatchOption result (IsNoneLeft rank rows start width (cell table.now width)) (IsFirstLeft rank rows start width (cell table.now width)) }
{
    for column in start..width {
        if pivot_row(table, rows, width, rank, column).is_some() {
            return Some(column);
        }
    }
    None
}

/// Reads a solution from a column of the reduced rows: its entry at each lead, and 0 elsewhere.
#[tactic(auto, using(std::proofs::lemmas::Nat::rows))]
fn read_solution(
    x: &mut [u16],
    table: &[u16],
    rank: usize,
    width: usize,
    place: &[u16],
    column: usize,
)
    requires size { rank * width ≤ length table.now }
    requires within { column < width }
    requires places { length place.now ≡ length x.old }
    ensures { (i : ℕ) → i < length place.now
        → slice_index x.new i ≡ (if nat_lt (slice_index place.now i) rank then cell table.now width (slice_index place.now i) column else 0) }
{
    for i in 0..place.len() {
        let at = place[i] as usize;
        x[i] = if at < rank {
            table[at * width + column]
        } else {
            0
        };
    }
}

/// Reads the solutions from the columns behind the reduced ones.
#[tactic(auto, using(std::proofs::lemmas::Nat::rows))]
fn read_solutions(
    xs: &mut [u16],
    count: usize,
    table: &[u16],
    rank: usize,
    width: usize,
    place: &[u16],
)
    requires size { rank * width ≤ length table.now }
    requires columns { length place.now + count ≡ width }
    requires room { length xs.old ≡ count * length place.now }
    ensures { (k i : ℕ) → k < count → i < length place.now
        → cell xs.new (length place.now) k i
        ≡ (if nat_lt (slice_index place.now i) rank then cell table.now width (slice_index place.now i) (length place.now + k) else 0) }
{
    let n = place.len();
    for k in 0..count {
        read_solution(&mut xs[k * n..k * n + n], table, rank, width, place, n + k);
    }
}

/// The solutions from the columns behind the first `n`, in which the rows are reduced.
fn solutions(
    alloc: Global,
    table: &[u16],
    rank: usize,
    n: usize,
    count: usize,
) -> Result<Vec<u16>, AllocError>
    requires size { rank * (n + count) ≤ length table.now }
    requires short { n ≤ 2048 }
    requires few { count ≤ 2048 }
    requires rank { rank ≤ 2048 }
    ensures { (p : ℕ) (lead : ℕ → ℕ) → IsReducedBy p rank n (cell table.now (n + count)) lead
        → IfOk result (λ xs. AreReadOff rank n count (cell table.now (n + count)) lead xs.items) }
{
    let mut places = [0u16; 2048];
    let mut frees = [0u16; 2048];
    let place = &mut places[..n];
    scan_leads(table, rank, n + count, n, place, &mut frees[..n]);
    let mut xs = vec![in alloc; 0u16; count * n]?;
    read_solutions(&mut xs, count, table, rank, n + count, place);
    Ok(xs)
}

/// The canonical solutions for some rows, which stand in a flat buffer, by one elimination; or the first row that has none.
fn solve_flat(alloc: Global, m: &Matrix, rows: &[u16], count: usize) -> Result<SolvedRows, NoMemory>
    requires few { count ≤ 2048 }
    requires size { length rows.now ≡ count * m.now.column_count }
    requires residues { (k : ℕ) → k < length rows.now → slice_index rows.now k < m.now.prime }
    ensures { IfOk result (λ s. AreSolved m.now count (λ i. row_by m.now.column_count (cell rows.now m.now.column_count i)) s) }
{
    let n = m.rows() as usize;
    let w = m.cols() as usize;
    let width = n + count;
    let mut table = system_table(alloc, m, rows, count)?;
    let rank = reduce_front(&mut table, m.field(), w, width, n);
    match first_left(&table, w, width, rank, n) {
        Some(column) => Ok(SolvedRows::Unsolved((column - n) as u32)),
        None => {
            let xs = solutions(alloc, &table, rank, n, count)?;
            Ok(SolvedRows::All(Items::new(xs)))
        }
    }
}

/// For each row of t the row x with x·m = that row that is 0 at each row of m in the span of the rows before it,
/// by one elimination; or the first row of t that has no solution.
pub fn solve_rows(alloc: Global, m: &Matrix, t: &Matrix) -> Result<SolvedRows, NoMemory>
    requires field { t.now.prime ≡ m.now.prime }
    requires width { t.now.column_count ≡ m.now.column_count }
    ensures { IfOk result (λ s. AreSolved m.now t.now.row_count (λ i. slice_index_or t.now.entries i []) s) }
{
    solve_flat(alloc, m, t.cells(), t.rows() as usize)
}

/// The row x with x·m = v that is 0 at each row in the span of the rows before it, or an obstruction where there is none.
pub fn solve(alloc: Global, m: &Matrix, v: &[u16]) -> Result<Solved, NoMemory>
    requires width { length v.now ≡ m.now.column_count }
    requires residues { (j : ℕ) → j < length v.now → slice_index v.now j < m.now.prime }
    ensures { IfOk result (λ s. IsSolved m.now v.now s) }
{
    match solve_flat(alloc, m, v, 1)? {
        SolvedRows::All(x) => Ok(Solved::Row(x)),
        SolvedRows::Unsolved(_) => match obstruction(alloc, m, v)? {
            Some(y) => Ok(Solved::Obstruction(y)),
            None => unreachable!(),
        },
    }
}
