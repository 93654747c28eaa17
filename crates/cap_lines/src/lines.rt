//! The lines of a text without the empty ones.

ghost use Rattle.std.specs.Prelude.{◌≡◌, ◌∷◌, [], ◌++◌, ◌&&◌, length, true, IfOk, OnOk};
ghost use Rattle.cap_grammar.specs.Scripts.{is_newline, whole_lines};
ghost use Rattle.cap_lines.specs.Marks.{marks, position};

use cap_grammar::{Fixed, Place, Symbol};
use std::alloc::{AllocError, Global};

fn is_newline(symbol: Symbol) -> bool
    ensures { result ≡ is_newline symbol }
{
    match symbol {
        Symbol::Fixed(Fixed::Newline) => true,
        _ => false,
    }
}

fn is_empty_line(begins: bool, newline: bool) -> bool
    ensures { result ≡ (begins && newline) }
{
    begins && newline
}

fn push_mark(
    symbols: &mut Vec<Symbol>,
    places: &mut Vec<Place>,
    symbol: &Symbol,
    place: &Place,
) -> Result<(), AllocError>
    ensures symbols { OnOk result (symbols.new.items ≡ symbols.old.items ++ symbol.now ∷ []) }
    ensures places { OnOk result (places.new.items ≡ places.old.items ++ place.now ∷ []) }
{
    symbols.push(*symbol)?;
    places.push(*place)?;
    Ok(())
}

/// The symbols of a text but those of its empty lines, with the end of its last line, and their places.
pub fn whole_lines(
    alloc: Global,
    symbols: &[Symbol],
    places: &[Place],
    end: Place,
) -> Result<(Vec<Symbol>, Vec<Place>), AllocError>
    requires { length symbols.now ≡ length places.now }
    ensures marks { IfOk result (λ x. marks x.0.items x.1.items ≡ whole_lines (marks symbols.now places.now) end) }
    ensures lengths { IfOk result (λ x. length x.0.items ≡ length x.1.items) }
{
    let mut kept = Vec::new(alloc);
    let mut kept_places = Vec::new(alloc);
    let mut begins = true;
    'symbols: for i in 0..symbols.len() {
        let symbol = &symbols[i];
        let place = &places[i];
        let newline = is_newline(*symbol);
        if !is_empty_line(begins, newline) {
            push_mark(&mut kept, &mut kept_places, symbol, place)?;
        }
        begins = newline;
    }
    if !begins {
        let newline = Symbol::Fixed(Fixed::Newline);
        push_mark(&mut kept, &mut kept_places, &newline, &end)?;
    }
    Ok((kept, kept_places))
}

/// How many symbols of a text stand before the one of this number among those that aren't empty lines.
pub fn position(symbols: &[Symbol], number: usize) -> usize
    ensures { result ≡ position true symbols.now number }
{
    let mut begins = true;
    let mut left = number;
    'symbols: for (i, symbol) in symbols.iter().enumerate() {
        let newline = is_newline(*symbol);
        if !(begins && newline) {
            if left == 0 {
                return i;
            }
            left -= 1;
        }
        begins = newline;
    }
    symbols.len()
}
