// Literals of matrices.
ghost use Rattle.std.specs.Prelude.{◌≡◌, ◌↔◌, ◌++◌, IsTrue, IfOk, map};
ghost use Rattle.std.specs.List.{All};
ghost use Rattle.cap_names.specs.declared.literals.MatLit.{MatLit as written};
ghost use Rattle.cap_data.specs.OfMatrices.{read_dimension};
ghost use Rattle.cap_offer.specs.Cells.{residue_of, residues_of};
ghost use Rattle.cap_offer.specs.Literals.{IsInteger, HasIntegers, HasMatrix, HasSize, Gives, matrix_literal, matrix_between};

use crate::faults::LitFault;
use cap_data::{MorData, ObjData};
use cap_field::Field;
use cap_matrix::{Matrix, fits};
use cap_names::{EntryLit, Items, MatLit, MorLit, NoMemory, TooLarge};
use std::alloc::Global;

/// The residue of an integer.
fn residue(field: Field, entry: &EntryLit) -> u16
    requires { IsInteger entry.now }
    ensures { result ≡ residue_of field entry.now }
{
    match entry {
        EntryLit::Int(n) => field.residue(*n),
        EntryLit::Coeffs(_) => unreachable!(),
    }
}

/// Puts the residues of a row behind others.
fn put_row(cells: &mut Vec<u16>, field: Field, row: &[EntryLit]) -> Result<(), NoMemory>
    requires { All IsInteger row.now }
    ensures { IfOk result (λ _. cells.new.items ≡ cells.old.items ++ map (residue_of field) row.now) }
{
    for entry in row {
        cells.push(residue(field, entry))?;
    }
    Ok(())
}

/// The residues of all rows, one row after another.
fn residues(alloc: Global, field: Field, rows: &[Items<EntryLit>]) -> Result<Vec<u16>, NoMemory>
    requires { All (λ row. All IsInteger row) rows.now }
    ensures { IfOk result (λ cells. cells.items ≡ residues_of field rows.now) }
{
    let mut cells = Vec::new(alloc);
    for row in rows {
        put_row(&mut cells, field, row.as_slice())?;
    }
    Ok(cells)
}

/// Whether a literal has so many rows of so many entries each; one without rows has them where there are no rows or no columns.
pub fn has_size(rows: u32, cols: u32, lit: &MatLit) -> bool
    ensures { IsTrue result ↔ HasSize rows cols lit.now }
{
    let written = lit.rows.as_slice();
    if written.is_empty() {
        return rows == 0 || cols == 0;
    }
    written.len() == rows as usize && written.iter().all(|row| row.len() == cols as usize)
}

/// The matrix of this size that a literal stands for.
fn read_rows(
    alloc: Global,
    field: Field,
    rows: u32,
    cols: u32,
    lit: &MatLit,
) -> Result<MorData, LitFault>
    requires { HasIntegers lit.now }
    ensures { Gives (matrix_literal field rows cols lit.now) result }
{
    if !has_size(rows, cols, lit) {
        return Err(LitFault::Shape { part: 1 });
    }
    if !fits(rows, cols) {
        return Err(LitFault::TooLarge(TooLarge { rows, cols }));
    }
    let cells = residues(alloc, field, lit.rows.as_slice())?;
    let _ = field.prime();
    let matrix = Matrix::from_cells(field, rows, cols, cells);
    Ok(MorData::Mat(matrix))
}

/// The dimension that an object is.
fn dimension(a: &ObjData) -> u32
    ensures { result ≡ read_dimension a.now }
{
    match a {
        ObjData::Dim(n) => *n,
        _ => 0,
    }
}

/// The matrix between dimensions that a literal stands for.
pub(crate) fn read_matrix(
    alloc: Global,
    field: Field,
    a: &ObjData,
    b: &ObjData,
    lit: &MorLit,
) -> Result<MorData, LitFault>
    requires { HasMatrix lit.now }
    ensures { Gives (matrix_between field a.now b.now lit.now) result }
{
    match lit {
        MorLit::Rows(matrix) => read_rows(alloc, field, dimension(a), dimension(b), matrix),
        MorLit::Parts(_) => unreachable!(),
    }
}
