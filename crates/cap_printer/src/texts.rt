// How symbols are written.
ghost use Rattle.std.specs.Prelude.{◌≡◌, ◌++◌, ◌||◌, OnOk};
ghost use Rattle.cap_grammar.specs.declared.symbol.Symbol.TheVariants as symbol;
ghost use Rattle.cap_printer.specs.Texts.{operation_text, symbol_text, opens, closes, gap};

use cap_grammar::{Fixed, Symbol};
use cap_names::{OpId, op_name};
use cap_symbols::fixed_text;
use std::alloc::{AllocError, Global};

/// Whether no blank stands behind the symbol.
fn opens(symbol: &Symbol) -> bool
    ensures { result ≡ opens symbol.now }
{
    match symbol {
        Symbol::Fixed(
            Fixed::Open
            | Fixed::OpenRound
            | Fixed::OpenBrace
            | Fixed::Dot
            | Fixed::Star
            | Fixed::Minus
            | Fixed::Newline,
        ) => true,
        _ => false,
    }
}

/// Whether no blank stands before the symbol.
fn closes(symbol: &Symbol) -> bool
    ensures { result ≡ closes symbol.now }
{
    match symbol {
        Symbol::Fixed(
            Fixed::Close
            | Fixed::CloseRound
            | Fixed::CloseBrace
            | Fixed::Semicolon
            | Fixed::Dot
            | Fixed::Star
            | Fixed::Newline,
        ) => true,
        _ => false,
    }
}

fn is_tight(before: &Symbol, symbol: &Symbol) -> bool
    ensures { result ≡ (opens before.now || closes symbol.now) }
{
    opens(before) || closes(symbol)
}

/// The name of an operation; one that there is not has an empty name.
fn operation_text(op: OpId) -> &'static str
    ensures { result.now ≡ operation_text op.0 }
{
    if op.0 == 0 {
        return "";
    }
    if op.0 > 44 {
        return "";
    }
    op_name(op)
}

fn push_number(alloc: Global, out: &mut Vec<u8>, number: u64) -> Result<(), AllocError>
    ensures { OnOk result (out.new.items ≡ out.old.items ++ symbol_text (symbol.Number number)) }
{
    let digits = number.to_string(alloc)?;
    out.extend_from_slice(digits.as_bytes())?;
    Ok(())
}

fn push_symbol(alloc: Global, out: &mut Vec<u8>, symbol: &Symbol) -> Result<(), AllocError>
    ensures { OnOk result (out.new.items ≡ out.old.items ++ symbol_text symbol.now) }
{
    match symbol {
        Symbol::Fixed(fixed) => out.extend_from_slice(fixed_text(*fixed).as_bytes())?,
        Symbol::Operation(op) => out.extend_from_slice(operation_text(*op).as_bytes())?,
        Symbol::Name(name) => out.extend_from_slice(name.as_bytes())?,
        Symbol::Number(number) => push_number(alloc, out, *number)?,
        Symbol::Nought => out.push(b'0')?,
    }
    Ok(())
}

/// Puts a symbol behind another one, with a blank between them where one belongs.
pub(crate) fn push_text(
    alloc: Global,
    out: &mut Vec<u8>,
    before: &Symbol,
    symbol: &Symbol,
) -> Result<(), AllocError>
    ensures { OnOk result (out.new.items ≡ out.old.items ++ (gap before.now symbol.now ++ symbol_text symbol.now)) }
{
    if !is_tight(before, symbol) {
        out.push(b' ')?;
    }
    push_symbol(alloc, out, symbol)?;
    Ok(())
}
