// Data as they are written.
ghost use Rattle.std.specs.Prelude.{◌≡◌, ◌++◌, ◌<◌, [], OnOk, map, codes, slice_index_or};
ghost use Rattle.std.specs.Fmt.{decimal};
ghost use Rattle.cap_matrix.specs.Grid.{IsShaped};
ghost use Rattle.cap_top_text.specs.Data.{joined, row_text, matrix_text, object_text, morphism_text};

use cap_data::{MorData, ObjData};
use cap_matrix::Matrix;
use cap_names::NoMemory;
use std::alloc::Global;

/// Writes a text at the end of a text.
pub fn push_text(out: &mut Vec<u8>, text: &str) -> Result<(), NoMemory>
    ensures { OnOk result (out.new.items ≡ out.old.items ++ text.now) }
{
    out.extend_from_slice(text.as_bytes())?;
    Ok(())
}

/// Writes a number.
pub fn push_number(alloc: Global, out: &mut Vec<u8>, number: u64) -> Result<(), NoMemory>
    ensures { OnOk result (out.new.items ≡ out.old.items ++ decimal number) }
{
    let digits = number.to_string(alloc)?;
    push_text(out, digits.as_str())
}

/// Writes a separator and a number.
fn push_separated(
    alloc: Global,
    out: &mut Vec<u8>,
    separator: &str,
    number: u64,
) -> Result<(), NoMemory>
    ensures { OnOk result (out.new.items ≡ (out.old.items ++ separator.now) ++ decimal number) }
{
    push_text(out, separator)?;
    push_number(alloc, out, number)
}

/// Writes a row of a matrix.
fn push_row(alloc: Global, out: &mut Vec<u8>, m: &Matrix, row: u32) -> Result<(), NoMemory>
    requires within { row < m.now.row_count }
    requires shaped { IsShaped m.now }
    ensures { OnOk result (out.new.items ≡ out.old.items ++ row_text (slice_index_or m.now.entries row [])) }
{
    for column in 0..m.cols() {
        let separator = if column == 0 { "" } else { " " };
        push_separated(alloc, out, separator, m.at(row, column) as u64)?;
    }
    Ok(())
}

/// Writes the rows of a matrix.
fn push_rows(alloc: Global, out: &mut Vec<u8>, m: &Matrix) -> Result<(), NoMemory>
    requires { IsShaped m.now }
    ensures { OnOk result (out.new.items ≡ out.old.items ++ joined (codes "; ") (map row_text m.now.entries)) }
{
    for row in 0..m.rows() {
        let separator = if row == 0 { "" } else { "; " };
        push_text(out, separator)?;
        push_row(alloc, out, m, row)?;
    }
    Ok(())
}

/// Writes a matrix.
fn push_matrix(alloc: Global, out: &mut Vec<u8>, m: &Matrix) -> Result<(), NoMemory>
    ensures { OnOk result (out.new.items ≡ out.old.items ++ matrix_text m.now) }
{
    let _field = m.field();
    push_text(out, "[")?;
    if m.cols() > 0 {
        push_rows(alloc, out, m)?;
    }
    push_text(out, "]")
}

/// Writes the data of an object.
pub fn push_object(alloc: Global, out: &mut Vec<u8>, object: &ObjData) -> Result<(), NoMemory>
    ensures { OnOk result (out.new.items ≡ out.old.items ++ object_text object.now) }
{
    match object {
        ObjData::Dim(n) => push_number(alloc, out, *n as u64),
        _ => Ok(()),
    }
}

/// Writes the data of a morphism.
pub fn push_morphism(alloc: Global, out: &mut Vec<u8>, value: &MorData) -> Result<(), NoMemory>
    ensures { OnOk result (out.new.items ≡ out.old.items ++ morphism_text value.now) }
{
    match value {
        MorData::Mat(m) => push_matrix(alloc, out, m),
        _ => Ok(()),
    }
}
