// The leads of reduced rows, and transposes: what several calls do with a flat buffer.
ghost use Rattle.std.specs.Prelude.{◌≡◌, ◌≢◌, ℕ, ◌+◌, ◌*◌, ◌<◌, ◌≤◌, length, slice_index};
ghost use Rattle.cap_matrix.specs.Reduced.{IsReducedBy};
ghost use Rattle.cap_matrix.specs.Buffer.{IsRowSoFar};
ghost use Rattle.cap_reduce.specs.Flat.{cell};
ghost use Rattle.cap_reduce.specs.NullTable.{IsScanned};

/// Finds the leads of rows that are reduced in the first `cols` columns of a buffer with `width` columns:
/// writes each column's row, or `rank` where it is no lead, and the columns that are no leads, in order.
#[tactic(auto, using(std::proofs::lemmas::Nat::rows))]
pub(crate) fn scan_leads(
    cells: &[u16],
    rank: usize,
    width: usize,
    cols: usize,
    place: &mut [u16],
    free: &mut [u16],
)
    requires size { rank * width ≤ length cells.now }
    requires within { cols ≤ width }
    requires narrow { rank ≤ 65535 }
    requires places { length place.old ≡ cols }
    requires frees { length free.old ≡ cols }
    requires short { cols ≤ 65535 }
    ensures { (p : ℕ) (lead : ℕ → ℕ) → IsReducedBy p rank cols (cell cells.now width) lead
        → IsScanned rank lead (λ j. slice_index place.new j) (λ j. slice_index free.new j) rank cols }
{
    let mut met = 0;
    for c in 0..cols {
        if met < rank && cells[met * width + c] != 0 {
            place[c] = met as u16;
            met += 1;
        } else {
            place[c] = rank as u16;
            free[c - met] = c as u16;
        }
    }
}

/// Writes a column of a matrix to one row of a wider buffer, from column `start` on.
#[tactic(auto, using(std::proofs::lemmas::Nat::rows))]
fn write_column_as_row(
    out: &mut [u16],
    width: usize,
    start: usize,
    cells: &[u16],
    rows: usize,
    cols: usize,
    column: usize,
)
    requires size { length cells.now ≡ rows * cols }
    requires out_size { length out.old ≡ cols * width }
    requires room { start + rows ≤ width }
    requires within { column < cols }
    ensures written { (i : ℕ) → i < rows → cell out.new width column (start + i) ≡ cell cells.now cols i column }
    ensures before { (q : ℕ) → q < start → cell out.new width column q ≡ cell out.old width column q }
    ensures others { (j q : ℕ) → q < width → j ≢ column → cell out.new width j q ≡ cell out.old width j q }
{
    for i in 0..rows {
        out[column * width + (start + i)] = cells[i * cols + column];
    }
}

/// Writes the transpose of a matrix to the rows of a wider buffer, from column `start` on.
#[tactic(auto, using(std::proofs::lemmas::Nat::rows))]
pub(crate) fn write_transpose(
    out: &mut [u16],
    width: usize,
    start: usize,
    cells: &[u16],
    rows: usize,
    cols: usize,
)
    requires size { length cells.now ≡ rows * cols }
    requires out_size { length out.old ≡ cols * width }
    requires room { start + rows ≤ width }
    ensures written { (j i : ℕ) → j < cols → i < rows → cell out.new width j (start + i) ≡ cell cells.now cols i j }
    ensures before { (j q : ℕ) → j < cols → q < start → cell out.new width j q ≡ cell out.old width j q }
{
    for j in 0..cols {
        write_column_as_row(out, width, start, cells, rows, cols, j);
    }
}
