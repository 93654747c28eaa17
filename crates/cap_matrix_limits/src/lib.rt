//! How large a matrix may be: the constants, and the one check of them.
#![tactic(auto)]

ghost use Rattle.std.specs.Prelude.{◌≡◌};
ghost use Rattle.cap_matrix_limits.specs.Limits.{keeps_limits};

/// A matrix has at most so many rows, and at most so many columns.
pub const MOST_SIDE: u32 = 2048;

/// A matrix has at most so many cells.
pub const MOST_CELLS: u64 = 1_048_576;

/// Whether a matrix with so many rows, columns and cells keeps the limits.
/// A matrix of numbers has one cell in each place; the cells of a matrix of morphisms are the coefficients of its entries.
pub fn keeps(rows: u32, cols: u32, cells: u64) -> bool
    ensures { result ≡ keeps_limits rows cols cells }
{
    rows <= MOST_SIDE && cols <= MOST_SIDE && cells <= MOST_CELLS
}
