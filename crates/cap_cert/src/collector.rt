// The certificates of a text without faults.
ghost use Rattle.std.specs.Prelude.{◌≡◌, ◌<◌, ◌-◌, ◌^◌, IfOk, Some, length};
ghost use Rattle.std.specs.List.{All};
ghost use Rattle.cap_names.specs.Tokens.{AreSlices};
ghost use Rattle.cap_cert.specs.Reading.{texts_of};
ghost use Rattle.cap_cert.specs.Machine.{begun};
ghost use Rattle.cap_cert.specs.Drafts.{blank, gather};

use super::certs::Cert;
use super::drafts::{act, blank, line_behind, push_made};
use super::faults::text_at;
use super::machine::{Next, State};
use super::steps::step;
use cap_names::{NoMemory, Token};
use std::alloc::Global;

/// The certificates of a text of strict certificates, by its tokens.
pub fn collect(alloc: Global, bytes: &[u8], tokens: &[Token]) -> Result<Vec<Cert>, NoMemory>
    requires slices { AreSlices bytes.now tokens.now }
    requires short { length tokens.now < 2 ^ 32 - 1 }
    ensures { IfOk result (λ certs. certs.items ≡ gather 1 (Some begun) (blank 1) (texts_of bytes.now tokens.now)) }
{
    let mut certs = Vec::new(alloc);
    let mut state = State {
        read: 0,
        next: Next::Start,
    };
    let mut line = 1;
    let mut draft = blank(1);
    'tokens: for index in 0..tokens.len() {
        let text = text_at(bytes, tokens, index);
        push_made(&mut certs, state.next, &draft)?;
        act(&mut draft, true, state.read, state.next, text, line);
        line = line_behind(line, state.next);
        match step(true, state, text) {
            Some(after) => state = after,
            None => return Ok(certs),
        }
    }
    Ok(certs)
}
