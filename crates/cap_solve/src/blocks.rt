// Blocks of the matrix of a system, added in place to one flat buffer that has its rows one after another.
ghost use Rattle.std.specs.Prelude.{◌≡◌, ℕ, ◌+◌, ◌*◌, ◌<◌, ◌≤◌, length, slice_index};
ghost use Rattle.cap_matrix.specs.Grid.{entry};
ghost use Rattle.cap_solve.specs.Blocks.{IsAdded, IsBlockAdded};

use cap_matrix::Matrix;

/// Adds residues modulo p to the cells from `at` on.
fn add_row(cells: &mut [u16], at: usize, source: &[u16], p: u16)
    requires within { at + length source.now ≤ length cells.old }
    requires high { p ≤ 251 }
    requires small { (k : ℕ) → slice_index cells.old k < p }
    requires source_small { (k : ℕ) → slice_index source.now k < p }
    ensures { IsAdded p cells.old cells.new at (length source.now) (λ k. slice_index source.now k) }
{
    for k in 0..source.len() {
        let sum = cells[at + k] + source[k];
        cells[at + k] = if sum < p { sum } else { sum - p };
    }
}

/// Adds a matrix of residues, from row `row` and column `col` on, in a buffer with `width` columns.
pub(crate) fn add_block(cells: &mut [u16], width: usize, row: usize, col: usize, block: &Matrix)
    requires few { row + block.now.row_count ≤ 2048 }
    requires rows { (row + block.now.row_count) * width ≤ length cells.old }
    requires columns { col + block.now.column_count ≤ width }
    requires small { (k : ℕ) → slice_index cells.old k < block.now.prime }
    ensures { IsBlockAdded block.now.prime width cells.old cells.new row col block.now.row_count block.now.column_count (entry block.now.entries) }
{
    let p = block.field().prime() as u16;
    let n = block.cols() as usize;
    let source = block.cells();
    for i in 0..block.rows() as usize {
        let start = i * n;
        add_row(cells, (row + i) * width + col, &source[start..start + n], p);
    }
}
