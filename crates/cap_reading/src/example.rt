//! The example grammar's functions, written as those of every parser on this crate are.

ghost use Rattle.std.specs.Prelude.{◌≡◌};
ghost use Rattle.cap_reading.specs.Steps.{begins, expect, with_front, many, whole};
ghost use Rattle.cap_reading.specs.Reading.{Gives};
ghost use Rattle.cap_reading.specs.Example.{is, digit_at, part_at, next_part_at, row_at, line_at};

use crate::fault::ReadError;
use cap_names::Items;
use std::alloc::Global;

pub type Part = (u8, Option<u8>);

fn starts(byte: u8, bytes: &[u8]) -> bool
    ensures { result ≡ begins (is byte) bytes.now }
{
    match bytes {
        [first, ..] => *first == byte,
        [] => false,
    }
}

fn expect(byte: u8, bytes: &[u8]) -> Result<&[u8], ReadError<'_, u8>>
    ensures { Gives (λ x. x.now) result (expect (is byte) bytes.now) }
{
    match bytes {
        [first, rest @ ..] if *first == byte => Ok(rest),
        _ => Err(ReadError::Syntax(bytes)),
    }
}

#[tactic(auto, unfolding(crate::specs::Example::digit_at))]
fn digit_of(bytes: &[u8]) -> Result<(u8, &[u8]), ReadError<'_, u8>>
    ensures { Gives (λ x. (x.0, x.1.now)) result (digit_at bytes.now) }
{
    match bytes {
        [b'o', rest @ ..] => Ok((0, rest)),
        [first, rest @ ..] if b'0' <= *first && *first <= b'9' => Ok((*first - b'0', rest)),
        _ => Err(ReadError::Syntax(bytes)),
    }
}

#[tactic(auto, unfolding(crate::specs::Example::part_at))]
fn part_of(bytes: &[u8]) -> Result<(Part, &[u8]), ReadError<'_, u8>>
    ensures { Gives (λ x. (x.0, x.1.now)) result (part_at bytes.now) }
{
    let (whole, rest) = digit_of(bytes)?;
    if starts(b'.', rest) {
        let rest = expect(b'.', rest)?;
        let (tenth, rest) = digit_of(rest)?;
        return Ok(((whole, Some(tenth)), rest));
    }
    Ok(((whole, None), rest))
}

#[tactic(auto, unfolding(crate::specs::Example::next_part_at))]
fn next_part_of(bytes: &[u8]) -> Result<(Part, &[u8]), ReadError<'_, u8>>
    ensures { Gives (λ x. (x.0, x.1.now)) result (next_part_at bytes.now) }
{
    let rest = expect(b',', bytes)?;
    part_of(rest)
}

fn more_parts(parts: Items<Part>, bytes: &[u8]) -> Result<(Items<Part>, &[u8]), ReadError<'_, u8>>
    ensures { Gives (λ x. (x.0, x.1.now)) result (with_front parts (many (is 44) next_part_at bytes.now)) }
{
    let mut parts = parts;
    let mut rest = bytes;
    'parts: while starts(b',', rest) {
        let (part, after) = next_part_of(rest)?;
        parts.push(part)?;
        rest = after;
    }
    Ok((parts, rest))
}

#[tactic(auto, unfolding(crate::specs::Example::row_at))]
fn row_of(alloc: Global, bytes: &[u8]) -> Result<(Items<Part>, &[u8]), ReadError<'_, u8>>
    ensures { Gives (λ x. (x.0, x.1.now)) result (row_at bytes.now) }
{
    let (first, rest) = part_of(bytes)?;
    let mut parts = Items::new(Vec::new(alloc));
    parts.push(first)?;
    more_parts(parts, rest)
}

#[tactic(auto, unfolding(crate::specs::Example::line_at))]
pub fn line_of(alloc: Global, bytes: &[u8]) -> Result<(Items<Part>, &[u8]), ReadError<'_, u8>>
    ensures { Gives (λ x. (x.0, x.1.now)) result (line_at bytes.now) }
{
    if starts(b'-', bytes) {
        let rest = expect(b'-', bytes)?;
        let rest = expect(b';', rest)?;
        return Ok((Items::new(Vec::new(alloc)), rest));
    }
    let (parts, rest) = row_of(alloc, bytes)?;
    let rest = expect(b';', rest)?;
    Ok((parts, rest))
}

fn read_line(alloc: Global, bytes: &[u8]) -> Result<Items<Part>, ReadError<'_, u8>>
    ensures { Gives (λ x. x) result (whole line_at bytes.now) }
{
    let (parts, rest) = line_of(alloc, bytes)?;
    match rest {
        [] => Ok(parts),
        _ => Err(ReadError::Syntax(rest)),
    }
}

#[test]
fn lines_and_faults(rt: HostRuntime) {
    let good: [(&[u8], usize); 3] = [(b"-;", 0), (b"7;", 1), (b"1,o.3,9.o;", 3)];
    for (text, count) in good {
        match read_line(rt.alloc(), text) {
            Ok(parts) => assert_eq!(rt; parts.len(), count),
            _ => assert!(rt; false),
        }
    }
    let bad: [(&[u8], usize); 4] = [(b"", 0), (b"1.;", 1), (b"1,,", 1), (b"1;;", 1)];
    for (text, left) in bad {
        match read_line(rt.alloc(), text) {
            Err(ReadError::Syntax(rest)) => assert_eq!(rt; rest.len(), left),
            _ => assert!(rt; false),
        }
    }
}
