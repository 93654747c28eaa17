// Integers, references and arguments.

ghost use Rattle.std.specs.Prelude.{◌≡◌};
ghost use Rattle.cap_reading.specs.Reading.{Gives};
ghost use Rattle.cap_literals.specs.Reading.{int_at, ref_at, arg_at};

use crate::tokens::{expect, name_of, number_of, starts, starts_name};
use cap_grammar::{ArgTok, Fixed, IntTok, RefTok, Symbol};
use cap_reading::ReadError;

/// An integer, and what is behind it.
#[tactic(auto, unfolding(crate::specs::Reading::int_at))]
pub fn int_of(symbols: &[Symbol]) -> Result<(IntTok, &[Symbol]), ReadError<'_, Symbol>>
    ensures { Gives (λ x. (x.0, x.1.now)) result (int_at symbols.now) }
{
    if starts(Fixed::Minus, symbols) {
        let rest = expect(Fixed::Minus, symbols)?;
        let (digits, rest) = number_of(rest)?;
        return Ok((
            IntTok {
                minus: true,
                digits,
            },
            rest,
        ));
    }
    let (digits, rest) = number_of(symbols)?;
    Ok((
        IntTok {
            minus: false,
            digits,
        },
        rest,
    ))
}

/// A reference to a value or to a part of a tuple, and what is behind it.
#[tactic(auto, unfolding(crate::specs::Reading::ref_at))]
pub fn ref_of(symbols: &[Symbol]) -> Result<(RefTok, &[Symbol]), ReadError<'_, Symbol>>
    ensures { Gives (λ x. (x.0, x.1.now)) result (ref_at symbols.now) }
{
    let (name, rest) = match name_of(symbols) {
        Ok(read) => read,
        Err(error) => return Err(error),
    };
    if starts(Fixed::Dot, rest) {
        let rest = expect(Fixed::Dot, rest)?;
        let (part, rest) = number_of(rest)?;
        return Ok((
            RefTok {
                name,
                part: Some(part),
            },
            rest,
        ));
    }
    Ok((RefTok { name, part: None }, rest))
}

/// An argument of an operation, and what is behind it.
#[tactic(auto, unfolding(crate::specs::Reading::arg_at))]
pub fn arg_of(symbols: &[Symbol]) -> Result<(ArgTok, &[Symbol]), ReadError<'_, Symbol>>
    ensures { Gives (λ x. (x.0, x.1.now)) result (arg_at symbols.now) }
{
    if starts_name(symbols) {
        return match ref_of(symbols) {
            Ok((reference, rest)) => Ok((ArgTok::Ref(reference), rest)),
            Err(error) => Err(error),
        };
    }
    let (int, rest) = int_of(symbols)?;
    Ok((ArgTok::Int(int), rest))
}
