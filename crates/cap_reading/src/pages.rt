//! The example's pages, told of a text with empty lines and perhaps without its last end.

ghost use Rattle.std.specs.Prelude.{◌≡◌, ℕ, ◌<◌, ◌^◌, List, Option, None, length, slice_index_or, IfOk, MatchResult};
ghost use Rattle.cap_reading.specs.Steps.{begins, with_front, many, whole};
ghost use Rattle.cap_reading.specs.Lines.{lines, line_places, text_of};
ghost use Rattle.cap_reading.specs.Reading.{Gives};
ghost use Rattle.cap_reading.specs.Example.{is, line_at, page, page_at, starts_line, FaultIs};

use crate::example::{Part, line_of};
use crate::fault::ReadError;
use cap_names::Items;
use std::alloc::{AllocError, Global};

type Page = Items<Items<Part>>;

fn starts_line(bytes: &[u8]) -> bool
    ensures { result ≡ begins starts_line bytes.now }
{
    match bytes {
        [first, ..] => *first == b'-' || *first == b'o' || (b'0' <= *first && *first <= b'9'),
        [] => false,
    }
}

fn more_lines(alloc: Global, lines: Page, bytes: &[u8]) -> Result<(Page, &[u8]), ReadError<'_, u8>>
    ensures { Gives (λ x. (x.0, x.1.now)) result (with_front lines (many starts_line line_at bytes.now)) }
{
    let mut lines = lines;
    let mut rest = bytes;
    'lines: while starts_line(rest) {
        let (line, after) = line_of(alloc, rest)?;
        lines.push(line)?;
        rest = after;
    }
    Ok((lines, rest))
}

#[tactic(auto, unfolding(crate::specs::Example::page_at), using(crate::proofs::Loops::front_none))]
fn page_of(alloc: Global, bytes: &[u8]) -> Result<Page, ReadError<'_, u8>>
    ensures { Gives (λ x. x) result (whole page_at bytes.now) }
{
    let (lines, rest) = more_lines(alloc, Items::new(Vec::new(alloc)), bytes)?;
    match rest {
        [] => Ok(lines),
        _ => Err(ReadError::Syntax(rest)),
    }
}

/// The bytes but those of empty lines, with the end of the last line, and where each stands.
fn lines_of(alloc: Global, bytes: &[u8]) -> Result<(Vec<u8>, Vec<usize>), AllocError>
    requires { length bytes.now < 2 ^ 32 }
    ensures lines { IfOk result (λ x. x.0.items ≡ lines (is 59) 59 bytes.now) }
    ensures places { IfOk result (λ x. x.1.items ≡ line_places (is 59) 59 bytes.now) }
{
    let mut kept = Vec::new(alloc);
    let mut places = Vec::new(alloc);
    let mut begins = true;
    'bytes: for (i, byte) in bytes.iter().enumerate() {
        let ends = *byte == b';';
        if !(begins && ends) {
            kept.push(*byte)?;
            places.push(i)?;
        }
        begins = ends;
    }
    if !begins {
        kept.push(b';')?;
        places.push(bytes.len())?;
    }
    Ok((kept, places))
}

/// The place at an index, or the end.
fn place_at(places: &[usize], index: usize, end: usize) -> usize
    ensures { result ≡ slice_index_or places.now index end }
{
    match places.get(index) {
        Some(place) => *place,
        None => end,
    }
}

/// The page of a text, or the place of its first fault, or no place where memory ran out.
fn read_page(alloc: Global, bytes: &[u8]) -> Result<Page, Option<usize>>
    requires { length bytes.now < 2 ^ 32 }
    // What is read is the page of this text.
    ensures found { IfOk result (λ s. text_of (is 59) 59 page s bytes.now) }
    // The page of the text is what is read, unless memory runs out.
    ensures only { (s : List (List (ℕ × Option ℕ))) → text_of (is 59) 59 page s bytes.now → MatchResult result (λ r. r ≡ s) (λ e. e ≡ None) }
    // A fault is the first.
    ensures fault { MatchResult result (λ _. Unit {0}) (FaultIs bytes.now) }
{
    let Ok((kept, places)) = lines_of(alloc, bytes) else {
        return Err(None);
    };
    match page_of(alloc, kept.as_slice()) {
        Ok(page) => Ok(page),
        Err(ReadError::Memory) => Err(None),
        Err(ReadError::Syntax(rest)) => {
            let before = kept.len() - rest.len();
            let place = place_at(places.as_slice(), before, bytes.len());
            Err(Some(place))
        }
    }
}

#[test]
fn pages_and_faults(rt: HostRuntime) {
    let good: [(&[u8], usize); 4] = [(b"", 0), (b";;", 0), (b"-", 1), (b";7;;1,o.3;", 2)];
    for (text, count) in good {
        match read_page(rt.alloc(), text) {
            Ok(page) => assert_eq!(rt; page.len(), count),
            _ => assert!(rt; false),
        }
    }
    let bad: [(&[u8], usize); 3] = [(b";;1.;", 4), (b"1,", 2), (b";-7", 2)];
    for (text, place) in bad {
        match read_page(rt.alloc(), text) {
            Err(Some(found)) => assert_eq!(rt; found, place),
            _ => assert!(rt; false),
        }
    }
}
