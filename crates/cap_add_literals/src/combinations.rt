// Literals of matrices of combinations.
ghost use Rattle.std.specs.Prelude.{◌≡◌, ◌++◌, ◌≤◌, IfOk, map, length};
ghost use Rattle.std.specs.List.{All};
ghost use Rattle.cap_add_laws.specs.Closure.{AreObjects};
ghost use Rattle.cap_encoded.specs.OfClosures.{read_list};
ghost use Rattle.cap_add_literals.specs.Combinations.{residue_in, residues_of_entry, lists_of};
ghost use Rattle.cap_offer.specs.Literals.{Gives};
ghost use Rattle.cap_add_literals.specs.Literals.{IsCoefficients, HasCoefficients, HasEntries, entries_literal, entries_between};
ghost use Rattle.cap_add_offer.specs.Offer.{list_offer};
ghost use Rattle.cap_primitives.specs.Given.{from_to};
ghost use Rattle.cap_ops.specs.Told.{IsArrow};
ghost use Rattle.cap_lincat.specs.Tables.{table_in};

use cap_addclosure::{count_within_limits, first_wrong};
use cap_data::{Entries, MorData, ObjData};
use cap_field::Field;
use cap_laws::{CatFault, Table};
use cap_lincat::LinTable;
use cap_names::{EntryLit, Items, MatLit, MorLit, NoMemory, TooLarge};
use cap_offer::{LitFault, has_size};
use std::alloc::Global;

/// The residue of an integer.
fn residue(field: Field, n: i64) -> u16
    ensures { result ≡ residue_in field n }
{
    field.residue(n)
}

/// The residues of coefficients.
fn residues(alloc: Global, field: Field, coefficients: &[i64]) -> Result<Items<u16>, NoMemory>
    ensures { IfOk result (λ row. row ≡ map (residue_in field) coefficients.now) }
{
    let mut row = Vec::new(alloc);
    for n in coefficients {
        row.push(residue(field, *n))?;
    }
    Ok(Items::new(row))
}

/// The residues of an entry's coefficients.
fn entry_residues(alloc: Global, field: Field, entry: &EntryLit) -> Result<Items<u16>, NoMemory>
    requires { IsCoefficients entry.now }
    ensures { IfOk result (λ row. row ≡ residues_of_entry field entry.now) }
{
    match entry {
        EntryLit::Coeffs(coefficients) => residues(alloc, field, coefficients.as_slice()),
        EntryLit::Int(_) => unreachable!(),
    }
}

/// Puts the residues of a row's entries behind others.
fn put_row(
    alloc: Global,
    entries: &mut Vec<Items<u16>>,
    field: Field,
    row: &[EntryLit],
) -> Result<(), NoMemory>
    requires { All IsCoefficients row.now }
    ensures { IfOk result (λ _. entries.new.items ≡ entries.old.items ++ map (residues_of_entry field) row.now) }
{
    for entry in row {
        entries.push(entry_residues(alloc, field, entry)?)?;
    }
    Ok(())
}

/// The residues of all entries, one row after another.
fn all_residues(
    alloc: Global,
    field: Field,
    rows: &[Items<EntryLit>],
) -> Result<Vec<Items<u16>>, NoMemory>
    requires { All (λ row. All IsCoefficients row) rows.now }
    ensures { IfOk result (λ entries. entries.items ≡ lists_of field rows.now) }
{
    let mut entries = Vec::new(alloc);
    for row in rows {
        put_row(alloc, &mut entries, field, row.as_slice())?;
    }
    Ok(entries)
}

/// The matrix of combinations between two lists that a literal stands for.
fn read_rows(
    alloc: Global,
    table: &LinTable,
    a: &[u32],
    b: &[u32],
    lit: &MatLit,
) -> Result<MorData, LitFault>
    requires from { AreObjects (⟦<LinTable as Table>⟧.table table.now) a.now }
    requires to { AreObjects (⟦<LinTable as Table>⟧.table table.now) b.now }
    requires short { length a.now ≤ 2048 }
    requires narrow { length b.now ≤ 2048 }
    requires entries { HasCoefficients lit.now }
    ensures { Gives (entries_literal (⟦<LinTable as Table>⟧.table table.now) a.now b.now lit.now) result }
{
    if !has_size(a.len() as u32, b.len() as u32, lit) {
        return Err(LitFault::Shape { part: 0 });
    }
    let entries = all_residues(alloc, table.field(), lit.rows.as_slice())?;
    if let Some(k) = first_wrong(table, a, b, &entries) {
        return Err(LitFault::Shape { part: k + 1 });
    }
    match count_within_limits(table, a, b) {
        Ok(_) => Ok(MorData::Entries(Entries::new(Items::new(entries)))),
        Err(CatFault::TooLarge { rows, cols }) => Err(LitFault::TooLarge(TooLarge { rows, cols })),
        Err(CatFault::NoMemory) => Err(LitFault::NoMemory),
    }
}

/// The list that an object is.
fn parts(a: &ObjData) -> &[u32]
    ensures value { result.now ≡ read_list a.now }
    ensures few { length result.now ≤ 2048 }
{
    match a {
        ObjData::Parts(parts) => parts.as_slice(),
        _ => &[],
    }
}

/// The morphism between two lists of objects of the table that a literal stands for; else its least wrong part (0 where it has a wrong number of rows or columns,
/// else the number of an entry, from 1 and row by row, with a wrong number of coefficients), or a size past the limits.
pub fn read_entries(
    alloc: Global,
    table: &LinTable,
    a: &ObjData,
    b: &ObjData,
    lit: &MorLit,
) -> Result<MorData, LitFault>
    requires source { (list_offer (table_in table.now)).category.is_object a.now }
    requires target { (list_offer (table_in table.now)).category.is_object b.now }
    requires form { HasEntries lit.now }
    ensures gives { Gives (entries_between (table_in table.now) a.now b.now lit.now) result }
    ensures arrow { IfOk result (λ m. IsArrow (list_offer (table_in table.now)).category (from_to a.now b.now m)) }
{
    match lit {
        MorLit::Rows(matrix) => read_rows(alloc, table, parts(a), parts(b), matrix),
        MorLit::Parts(_) => unreachable!(),
    }
}
