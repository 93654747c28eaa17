// The symbols of a text and their places, from left to right.
ghost use Rattle.std.specs.Prelude.{◌≡◌, ◌-◌, ◌<◌, ◌≤◌, ◌^◌, ◌++◌, ◌∷◌, [], length, IfOk, IfErr, OnOk};
ghost use Rattle.cap_names.specs.Tokens.{IsCause, IsTokenText};
ghost use Rattle.cap_grammar.specs.Texts.{IsSymbol};
ghost use Rattle.cap_symbols.specs.Marks.{place_at, AreSymbols};

use crate::kinds::symbol_of;
use cap_grammar::{Place, Symbol};
use cap_names::{TokenFault, tokens};
use std::alloc::{AllocError, Global};

/// The place at a byte, given that at an earlier one.
fn advance(bytes: &[u8], from: usize, to: usize, place: Place) -> Place
    requires short { length bytes.now < 2 ^ 32 - 1 }
    requires order { from ≤ to }
    requires within { to ≤ length bytes.now }
    requires known { place ≡ place_at bytes.now from }
    ensures { result ≡ place_at bytes.now to }
{
    let mut line = place.line;
    let mut column = place.column;
    'bytes: for index in from..to {
        if bytes[index] == b'\n' {
            line += 1;
            column = 1;
        } else {
            column += 1;
        }
    }
    Place { line, column }
}

/// Puts a symbol and its place behind the others.
fn push_mark(
    symbols: &mut Vec<Symbol>,
    places: &mut Vec<Place>,
    symbol: Symbol,
    place: Place,
) -> Result<(), AllocError>
    ensures symbols { OnOk result (symbols.new.items ≡ symbols.old.items ++ symbol ∷ []) }
    ensures places { OnOk result (places.new.items ≡ places.old.items ++ place ∷ []) }
{
    symbols.push(symbol)?;
    places.push(place)?;
    Ok(())
}

/// The symbols of a text, and the place of each; or the first byte that is in no token.
pub fn symbols(alloc: Global, bytes: &[u8]) -> Result<(Vec<Symbol>, Vec<Place>), TokenFault>
    requires { length bytes.now < 2 ^ 32 - 1 }
    ensures found { IfOk result (λ x. AreSymbols bytes.now x.0.items x.1.items) }
    ensures bad { IfErr result (IsCause bytes.now) }
{
    let tokens = tokens(alloc, bytes)?;
    let mut symbols = Vec::new(alloc);
    let mut places = Vec::new(alloc);
    let mut place = Place { line: 1, column: 1 };
    let mut at = 0;
    'tokens: for token in tokens.as_slice() {
        let start = token.start as usize;
        place = advance(bytes, at, start, place);
        at = start;
        let symbol = symbol_of(token.kind, &bytes[start..token.end as usize]);
        push_mark(&mut symbols, &mut places, symbol, place)?;
    }
    Ok((symbols, places))
}
