// Reading the certificates of a text.
ghost use Rattle.std.specs.Prelude.{◌≡◌, ◌<◌, ◌≤◌, ◌-◌, ◌^◌, IfOk, IfErr, MatchResult, List, length};
ghost use Rattle.std.specs.List.{All};
ghost use Rattle.cap_names.specs.Tokens.{AreTokens, AreSlices};
ghost use Rattle.cap_cert.specs.declared.certs.Cert.{Cert};
ghost use Rattle.cap_cert.specs.Lines.{IsRead};
ghost use Rattle.cap_cert.specs.Reading.{texts_of, IsCertsText};
ghost use Rattle.cap_cert.specs.Refusals.{AreCertsOf, token_place, IsToldAt, IsToldFault, IsRefused};

use super::certs::Cert;
use super::collector::collect;
use super::faults::first_fault;
use super::refusal::CertsFault;
use cap_names::{BadScript, Reason, Token, TokenFault, line_column, tokens};
use std::alloc::Global;

/// Where the token with this number begins, or the end of the text where there is none.
#[tactic(auto, using(crate::proofs::Refused::token_within))]
fn token_place(bytes: &[u8], tokens: &[Token], number: usize) -> usize
    requires { AreSlices bytes.now tokens.now }
    ensures place { result ≡ token_place bytes.now tokens.now number }
    ensures within { result ≤ length bytes.now }
{
    match tokens.get(number) {
        Some(token) => token.start as usize,
        None => bytes.len(),
    }
}

/// The refusal for this reason at this place.
fn refusal(bytes: &[u8], place: usize, reason: Reason) -> BadScript
    requires short { length bytes.now < 2 ^ 32 - 1 }
    requires within { place ≤ length bytes.now }
    ensures told { IsToldAt bytes.now result place }
    ensures reason { result.reason ≡ reason }
{
    let (line, column) = line_column(bytes, place);
    BadScript {
        line,
        column,
        reason,
    }
}

/// Nothing where certificates, strict ones if that is asked for, spell the text; else the refusal at the first fault.
fn fault_by(strict: bool, bytes: &[u8], tokens: &[Token], reason: Reason) -> Result<(), BadScript>
    requires short { length bytes.now < 2 ^ 32 - 1 }
    requires slices { AreSlices bytes.now tokens.now }
    ensures ok { IfOk result (λ _. IsCertsText strict (texts_of bytes.now tokens.now)) }
    ensures fault { IfErr result (λ bad. IsToldFault strict bytes.now tokens.now bad) }
    ensures reason { IfErr result (λ bad. bad.reason ≡ reason) }
{
    match first_fault(strict, bytes, tokens) {
        None => Ok(()),
        Some(number) => Err(refusal(bytes, token_place(bytes, tokens, number), reason)),
    }
}

/// The certificates of a text with these tokens.
#[tactic(auto, using(crate::proofs::Refused::tokens_few))]
fn read_tokens(alloc: Global, bytes: &[u8], tokens: &[Token]) -> Result<Vec<Cert>, CertsFault>
    requires short { length bytes.now < 2 ^ 32 - 1 }
    requires are { AreTokens bytes.now tokens.now }
    requires slices { AreSlices bytes.now tokens.now }
    ensures found { IfOk result (λ certs. AreCertsOf bytes.now certs.items) }
    ensures refused { IfErr result (IsRefused bytes.now) }
{
    if let Err(bad) = fault_by(false, bytes, tokens, Reason::Syntax) {
        return Err(CertsFault::BadScript(bad));
    }
    if let Err(bad) = fault_by(true, bytes, tokens, Reason::Limit) {
        return Err(CertsFault::BadScript(bad));
    }
    match collect(alloc, bytes, tokens) {
        Ok(certs) => Ok(certs),
        Err(_) => Err(CertsFault::NoMemory),
    }
}

/// The certificates of a text.
pub fn read_certs(alloc: Global, bytes: &[u8]) -> Result<Vec<Cert>, CertsFault>
    requires { length bytes.now < 2 ^ 32 - 1 }

    // The answer is the certificates of the text, which keep the limits.
    ensures found { IfOk result (λ certs. AreCertsOf bytes.now certs.items) }
    ensures kept { IfOk result (λ certs. All IsRead certs.items) }

    // A text of certificates that keep the limits gets these, unless memory runs out.
    ensures only { (certs : List Cert) → AreCertsOf bytes.now certs → MatchResult result (λ v. v.items ≡ certs) (λ e. e ≡ CertsFault.NoMemory) }

    // A refusal tells the first fault, where it stands and what it is.
    ensures refused { IfErr result (IsRefused bytes.now) }
{
    match tokens(alloc, bytes) {
        Ok(tokens) => read_tokens(alloc, bytes, &tokens),
        Err(TokenFault::BadByte(bad)) => Err(CertsFault::BadScript(refusal(
            bytes,
            bad.place,
            Reason::Token,
        ))),
        Err(TokenFault::NoMemory) => Err(CertsFault::NoMemory),
    }
}
