// Times row reduction: each line of standard input is an operation, a prime, a size and a rank, as `rref 101 512 256`.
// It prints the line again with the microseconds that the operation took and a number of its answer.
#![tactic(auto)]

ghost use Rattle.std.specs.Prelude.{◌≡◌, ℕ, ◌*◌, ◌<◌, ◌≤◌, IfOk, length, slice_index};
ghost use Rattle.cap_matrix.specs.Grid.{Grid};

use cap_field::Field;
use cap_matrix::Matrix;
use cap_reduce::{Solved, null_rows, rref, solve};
use std::alloc::{AllocError, Global};
use std::io;
use std::time::Instant;

/// One more number of a linear congruential generator modulo 2^64, of period 2^64.
fn next(seed: &mut u64) -> u32 {
    *seed = seed
        .wrapping_mul(6364136223846793005)
        .wrapping_add(1442695040888963407);
    (*seed >> 33) as u32
}

/// Residues below p.
fn random_cells(alloc: Global, count: usize, p: u32, seed: &mut u64) -> Result<Vec<u16>, AllocError>
    requires low { 2 ≤ p }
    requires high { p ≤ 251 }
    ensures { IfOk result (λ v. (length v.items ≡ count) × ((k : ℕ) → slice_index v.items k < p)) }
{
    let mut v = vec![in alloc; 0u16; count]?;
    for i in 0..count {
        v[i] = (next(seed) % p) as u16;
    }
    Ok(v)
}

/// A matrix of random residues.
fn random_matrix(
    alloc: Global,
    field: Field,
    rows: u32,
    cols: u32,
    seed: &mut u64,
) -> Result<Matrix, AllocError>
    requires rows { rows ≤ 1024 }
    requires cols { cols ≤ 1024 }
    ensures { IfOk result (λ m. (m.prime ≡ field) × (m.row_count ≡ rows) × (m.column_count ≡ cols)) }
{
    let cells = random_cells(alloc, rows as usize * cols as usize, field.prime(), seed)?;
    Ok(Matrix::from_cells(field, rows, cols, cells))
}

/// A square matrix of size n whose rank is mostly this.
fn square(
    alloc: Global,
    field: Field,
    n: u32,
    rank: u32,
    seed: &mut u64,
) -> Result<Matrix, AllocError>
    requires size { n ≤ 1024 }
    requires rank { rank ≤ n }
    ensures { IfOk result (λ m. (m.prime ≡ field) × (m.row_count ≡ n) × (m.column_count ≡ n)) }
{
    if rank == n {
        return random_matrix(alloc, field, n, n, seed);
    }
    let left = random_matrix(alloc, field, n, rank, seed)?;
    let right = random_matrix(alloc, field, rank, n, seed)?;
    match left.product(alloc, &right) {
        Ok(m) => Ok(m),
        Err(_) => Err(AllocError),
    }
}

/// Does the operation once, and answers a number of what it gave.
fn operate(alloc: Global, operation: &str, m: &Matrix) -> Result<u32, AllocError>
    requires { m.now.row_count ≡ m.now.column_count }
{
    match operation {
        "rref" => match rref(alloc, m) {
            Ok(r) => Ok(r.rows()),
            Err(_) => Err(AllocError),
        },
        "null_rows" => match null_rows(alloc, m) {
            Ok(k) => Ok(k.rows()),
            Err(_) => Err(AllocError),
        },
        "product" => match m.product(alloc, m) {
            Ok(s) => Ok(s.rows()),
            Err(_) => Err(AllocError),
        },
        _ => Ok(0),
    }
}

/// Solves for the last row.
fn solve_last(alloc: Global, m: &Matrix) -> Result<u32, AllocError> {
    let cols = m.cols() as usize;
    let cells = m.cells();
    if cells.len() < cols {
        return Ok(0);
    }
    match solve(alloc, m, &cells[cells.len() - cols..]) {
        Ok(Solved::Row(_)) => Ok(1),
        Ok(Solved::Obstruction(_)) => Ok(0),
        Err(_) => Err(AllocError),
    }
}

/// The number that a word is, or 0.
fn number(word: Option<&str>) -> u32 {
    match word {
        Some(text) => text.parse::<u32>().unwrap_or(0),
        None => 0,
    }
}

/// Times one line.
fn time_line(rt: &HostRuntime, line: &str) -> io::Result<()> {
    let mut words = line.split_whitespace();
    let operation = words.next().unwrap_or("");
    let p = number(words.next());
    let n = number(words.next()).min(1024);
    let rank = number(words.next()).min(n);
    let Some(field) = Field::from_prime(p) else {
        return println!(rt; "{line}: no field");
    };
    let mut seed = 12345u64;
    let m = square(rt.alloc(), field, n, rank, &mut seed)?;
    let start = Instant::now(rt)?;
    let answer = if operation == "solve" {
        solve_last(rt.alloc(), &m)?
    } else {
        operate(rt.alloc(), operation, &m)?
    };
    let taken = start.elapsed(rt)?.as_micros();
    println!(rt; "{operation} {p} {n} {rank} {taken} {answer}")
}

fn main(rt: HostRuntime) -> io::Result<()> {
    for line in rt.lines(rt.alloc()) {
        let text = line?;
        time_line(&rt, text.as_str())?;
    }
    Ok(())
}
