// The first token with which no certificates go on.
ghost use Rattle.std.specs.Prelude.{◌≡◌, ◌<◌, ◌↔◌, [], IsTrue, IfSome, IfNone, length, slice_index_or};
ghost use Rattle.cap_names.specs.Tokens.{AreSlices};
ghost use Rattle.cap_cert.specs.Reading.{texts_of, IsCertsText, IsFaultAt};
ghost use Rattle.cap_cert.specs.Machine.{may_end};

use super::machine::{Next, State};
use super::steps::step;
use cap_names::Token;

/// The text of the token at a place.
pub fn text_at<'a>(bytes: &'a [u8], tokens: &[Token], index: usize) -> &'a [u8]
    requires slices { AreSlices bytes.now tokens.now }
    requires inside { index < length tokens.now }
    ensures { result.now ≡ slice_index_or (texts_of bytes.now tokens.now) index [] }
{
    let token = tokens[index];
    &bytes[token.start as usize..token.end as usize]
}

/// Whether a text may end here.
fn may_end(state: State) -> bool
    ensures { IsTrue result ↔ may_end state }
{
    match state.next {
        Next::Start => state.read > 0,
        _ => false,
    }
}

/// The first of a text's tokens with which no certificates go on, or the number of the tokens where more have to come.
/// Strict certificates keep the limits.
pub fn first_fault(strict: bool, bytes: &[u8], tokens: &[Token]) -> Option<usize>
    requires { AreSlices bytes.now tokens.now }
    ensures none { IfNone result (IsCertsText strict (texts_of bytes.now tokens.now)) }
    ensures some { IfSome result (λ n. IsFaultAt strict (texts_of bytes.now tokens.now) n) }
{
    let mut state = State {
        read: 0,
        next: Next::Start,
    };
    'tokens: for index in 0..tokens.len() {
        match step(strict, state, text_at(bytes, tokens, index)) {
            Some(after) => state = after,
            None => return Some(index),
        }
    }
    if may_end(state) {
        None
    } else {
        Some(tokens.len())
    }
}
