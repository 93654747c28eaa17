// The symbols of matrix literals.
ghost use Rattle.std.specs.Prelude.{◌≡◌, ◌++◌, ◌∷◌, [], OnOk};
ghost use Rattle.std.specs.List.{flat_map};
ghost use Rattle.cap_grammar.specs.declared.symbol.Fixed.TheVariants as word;
ghost use Rattle.cap_grammar.specs.declared.symbol.Symbol.TheVariants as symbol;
ghost use Rattle.cap_spelling.specs.Spelling.{int_symbols, entry_symbols, row_symbols, rows_symbols, morphism_symbols};

use crate::words::push_int;
use cap_grammar::{EntryTok, Fixed, IntTok, MorTok, RowsTok, Symbol};
use cap_names::Items;
use std::alloc::AllocError;

fn push_ints(out: &mut Vec<Symbol>, integers: &[IntTok]) -> Result<(), AllocError>
    ensures { OnOk result (out.new.items ≡ out.old.items ++ flat_map int_symbols integers.now) }
{
    'integers: for integer in integers {
        push_int(out, *integer)?;
    }
    Ok(())
}

fn push_entry(out: &mut Vec<Symbol>, entry: &EntryTok) -> Result<(), AllocError>
    ensures { OnOk result (out.new.items ≡ out.old.items ++ entry_symbols entry.now) }
{
    match entry {
        EntryTok::Int(integer) => push_int(out, *integer)?,
        EntryTok::Coeffs(integers) => {
            out.push(Symbol::Fixed(Fixed::OpenRound))?;
            push_ints(out, integers.as_slice())?;
            out.push(Symbol::Fixed(Fixed::CloseRound))?;
        }
    }
    Ok(())
}

fn push_row(out: &mut Vec<Symbol>, entries: &[EntryTok]) -> Result<(), AllocError>
    ensures { OnOk result (out.new.items ≡ out.old.items ++ row_symbols entries.now) }
{
    'entries: for entry in entries {
        push_entry(out, entry)?;
    }
    Ok(())
}

fn push_more_rows(out: &mut Vec<Symbol>, rows: &[Items<EntryTok>]) -> Result<(), AllocError>
    ensures { OnOk result (out.new.items ≡ out.old.items ++ flat_map (λ r. symbol.Fixed word.Semicolon ∷ row_symbols r) rows.now) }
{
    'rows: for entries in rows {
        out.push(Symbol::Fixed(Fixed::Semicolon))?;
        push_row(out, entries.as_slice())?;
    }
    Ok(())
}

pub(crate) fn push_rows(out: &mut Vec<Symbol>, matrix: &RowsTok) -> Result<(), AllocError>
    ensures { OnOk result (out.new.items ≡ out.old.items ++ rows_symbols matrix.now) }
{
    out.push(Symbol::Fixed(Fixed::Open))?;
    if let [first, others @ ..] = matrix.rows.as_slice() {
        push_row(out, first.as_slice())?;
        push_more_rows(out, others)?;
    }
    out.push(Symbol::Fixed(Fixed::Close))?;
    Ok(())
}

fn push_matrices(out: &mut Vec<Symbol>, matrices: &[RowsTok]) -> Result<(), AllocError>
    ensures { OnOk result (out.new.items ≡ out.old.items ++ flat_map rows_symbols matrices.now) }
{
    'matrices: for matrix in matrices {
        push_rows(out, matrix)?;
    }
    Ok(())
}

pub(crate) fn push_morphism(out: &mut Vec<Symbol>, literal: &MorTok) -> Result<(), AllocError>
    ensures { OnOk result (out.new.items ≡ out.old.items ++ morphism_symbols literal.now) }
{
    match literal {
        MorTok::Rows(matrix) => push_rows(out, matrix)?,
        MorTok::Parts(matrices) => {
            out.push(Symbol::Fixed(Fixed::OpenBrace))?;
            push_matrices(out, matrices.as_slice())?;
            out.push(Symbol::Fixed(Fixed::CloseBrace))?;
        }
    }
    Ok(())
}
