// Reading one symbol.

ghost use Rattle.std.specs.Prelude.{◌≡◌};
ghost use Rattle.cap_reading.specs.Steps.{begins, expect};
ghost use Rattle.cap_reading.specs.Reading.{Gives};
ghost use Rattle.cap_literals.specs.Reading.{is, is_name, is_number, is_nought, starts_int, starts_arg, starts_entry, name_at, operation_at, number_at};

use cap_grammar::{Fixed, Symbol};
use cap_names::{Name, OpId};
use cap_reading::ReadError;

/// Whether a symbol is this word or mark.
pub fn is(fixed: Fixed, symbol: &Symbol) -> bool
    ensures { result ≡ is fixed symbol.now }
{
    match symbol {
        Symbol::Fixed(other) => *other as u8 == fixed as u8,
        _ => false,
    }
}

/// Whether the symbols begin with this word or mark.
pub fn starts(fixed: Fixed, symbols: &[Symbol]) -> bool
    ensures { result ≡ begins (is fixed) symbols.now }
{
    match symbols {
        [first, ..] => is(fixed, first),
        [] => false,
    }
}

/// What is behind this word or mark.
pub fn expect(fixed: Fixed, symbols: &[Symbol]) -> Result<&[Symbol], ReadError<'_, Symbol>>
    ensures { Gives (λ x. x.now) result (expect (is fixed) symbols.now) }
{
    match symbols {
        [first, rest @ ..] if is(fixed, first) => Ok(rest),
        _ => Err(ReadError::Syntax(symbols)),
    }
}

/// A name, and what is behind it.
#[tactic(auto, unfolding(crate::specs::Reading::name_at))]
pub fn name_of(symbols: &[Symbol]) -> Result<(Name, &[Symbol]), ReadError<'_, Symbol>>
    ensures { Gives (λ x. (x.0, x.1.now)) result (name_at symbols.now) }
{
    match symbols {
        [Symbol::Name(name), rest @ ..] => Ok((*name, rest)),
        _ => Err(ReadError::Syntax(symbols)),
    }
}

/// An operation, and what is behind it.
#[tactic(auto, unfolding(crate::specs::Reading::operation_at))]
pub fn operation_of(symbols: &[Symbol]) -> Result<(OpId, &[Symbol]), ReadError<'_, Symbol>>
    ensures { Gives (λ x. (x.0, x.1.now)) result (operation_at symbols.now) }
{
    match symbols {
        [Symbol::Operation(op), rest @ ..] => Ok((*op, rest)),
        _ => Err(ReadError::Syntax(symbols)),
    }
}

/// A number, and what is behind it.
#[tactic(auto, unfolding(crate::specs::Reading::number_at))]
pub fn number_of(symbols: &[Symbol]) -> Result<(u64, &[Symbol]), ReadError<'_, Symbol>>
    ensures { Gives (λ x. (x.0, x.1.now)) result (number_at symbols.now) }
{
    match symbols {
        [Symbol::Number(number), rest @ ..] => Ok((*number, rest)),
        [Symbol::Nought, rest @ ..] => Ok((0, rest)),
        _ => Err(ReadError::Syntax(symbols)),
    }
}

/// Whether the symbols begin with a name.
pub fn starts_name(symbols: &[Symbol]) -> bool
    ensures { result ≡ begins is_name symbols.now }
{
    match symbols {
        [Symbol::Name(_), ..] => true,
        _ => false,
    }
}

/// Whether the symbols begin with a number.
pub fn starts_number(symbols: &[Symbol]) -> bool
    ensures { result ≡ begins is_number symbols.now }
{
    match symbols {
        [Symbol::Number(_), ..] => true,
        [Symbol::Nought, ..] => true,
        _ => false,
    }
}

/// Whether the symbols begin with the token `0`.
pub fn starts_nought(symbols: &[Symbol]) -> bool
    ensures { result ≡ begins is_nought symbols.now }
{
    match symbols {
        [Symbol::Nought, ..] => true,
        _ => false,
    }
}

/// Whether the symbols begin with an integer.
pub fn starts_int(symbols: &[Symbol]) -> bool
    ensures { result ≡ begins starts_int symbols.now }
{
    match symbols {
        [Symbol::Number(_), ..] => true,
        [Symbol::Nought, ..] => true,
        _ => starts(Fixed::Minus, symbols),
    }
}

/// Whether the symbols begin with an argument.
pub fn starts_arg(symbols: &[Symbol]) -> bool
    ensures { result ≡ begins starts_arg symbols.now }
{
    match symbols {
        [Symbol::Name(_), ..] => true,
        _ => starts_int(symbols),
    }
}

/// Whether the symbols begin with an entry of a matrix.
pub fn starts_entry(symbols: &[Symbol]) -> bool
    ensures { result ≡ begins starts_entry symbols.now }
{
    match symbols {
        [first, ..] if is(Fixed::OpenRound, first) => true,
        _ => starts_int(symbols),
    }
}
