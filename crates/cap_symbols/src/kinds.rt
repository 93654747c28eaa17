// What a token stands for.
ghost use Rattle.std.specs.Prelude.{◌≡◌, ◌+◌, ◌-◌, ◌*◌, ◌^◌, ◌<◌, ◌≤◌, ℕ, length, codes};
ghost use Rattle.cap_names.specs.Words.{IsNumber, IsWord};
ghost use Rattle.cap_names.specs.Tokens.{IsTokenText};
ghost use Rattle.std.specs.Str.Parse.{digits_value};
ghost use Rattle.cap_grammar.specs.Texts.{IsSymbol, fixed_text};
ghost use Rattle.cap_grammar.specs.declared.symbol.Fixed.{Fixed};

use crate::words::fixed_by_text;
use cap_grammar::{Fixed, Symbol};
use cap_names::{Name, TokenKind, op_by_name};

/// The value of digits.
fn value(digits: &[u8]) -> u64
    requires { IsNumber digits.now }
    ensures { result ≡ digits_value 10 digits.now }
{
    let mut value = 0;
    'digits: for digit in digits {
        value = value * 10 + (*digit - b'0') as u64;
    }
    value
}

/// The number that is written so.
fn number_symbol(text: &[u8]) -> Symbol
    requires { IsNumber text.now }
    ensures { IsSymbol text.now result }
{
    if text == b"0".as_slice() {
        Symbol::Nought
    } else {
        Symbol::Number(value(text))
    }
}

/// What a word stands for.
fn word_symbol(text: &[u8]) -> Symbol
    requires { IsWord text.now }
    ensures { IsSymbol text.now result }
{
    if let Some(fixed) = fixed_by_text(text) {
        return Symbol::Fixed(fixed);
    }
    if let Some(op) = op_by_name(text) {
        return Symbol::Operation(op);
    }
    match Name::new(text) {
        Some(name) => Symbol::Name(name),
        None => unreachable!(),
    }
}

/// What a mark stands for.
fn mark_symbol(text: &[u8]) -> Symbol
    requires { (w : Fixed) × (fixed_text w ≡ text.now) }
    ensures { IsSymbol text.now result }
{
    match fixed_by_text(text) {
        Some(fixed) => Symbol::Fixed(fixed),
        None => unreachable!(),
    }
}

/// What a token of this kind and text stands for.
pub(crate) fn symbol_of(kind: TokenKind, text: &[u8]) -> Symbol
    requires { IsTokenText kind text.now }
    ensures { IsSymbol text.now result }
{
    match kind {
        TokenKind::Word => word_symbol(text),
        TokenKind::Number => number_symbol(text),
        TokenKind::Mark => mark_symbol(text),
        TokenKind::Newline => Symbol::Fixed(Fixed::Newline),
    }
}
