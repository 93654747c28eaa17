// The longest pieces of a text, from left to right.
ghost use Rattle.std.specs.Prelude.{◌≡◌, ◌⊎◌, ◌+◌, ◌-◌, ◌≤◌, ◌<◌, ◌^◌, ℕ, length, ◌++◌, [], ◌∷◌, List, MatchOption, MatchResult, IfOk, IfErr, OnOk, option_map, option_to_list};
ghost use Rattle.std.specs.List.{prefix_len};
ghost use Rattle.cap_names.specs.declared.token.Token.{Token};
ghost use Rattle.cap_names.specs.Tokens.{is_mark, kind_of, goes_on, limit, token_kind, AreTokens, AreSlices, IsBadAt, IsCause};

use crate::name::is_word_byte;
use crate::token::{BadByte, PieceKind, Token, TokenFault, TokenKind};
use std::alloc::{AllocError, Global};

fn is_mark(byte: u8) -> bool
    ensures { result ≡ is_mark byte }
{
    matches!(
        byte,
        b'[' | b']' | b'(' | b')' | b'{' | b'}' | b';' | b'=' | b'.' | b'*' | b'+'
    )
}

fn kind_of(byte: u8) -> Option<PieceKind>
    ensures { result ≡ kind_of byte }
{
    if byte == b' ' || byte == b'\t' || byte == b'\r' {
        Some(PieceKind::Blank)
    } else if byte.is_ascii_alphabetic() {
        Some(PieceKind::Word)
    } else if byte.is_ascii_digit() {
        Some(PieceKind::Number)
    } else if byte == b'#' {
        Some(PieceKind::Comment)
    } else if byte == b'-' {
        Some(PieceKind::Dash)
    } else if byte == b'\n' {
        Some(PieceKind::Newline)
    } else if is_mark(byte) {
        Some(PieceKind::Mark)
    } else {
        None
    }
}

fn goes_on(kind: PieceKind, byte: u8) -> bool
    ensures { result ≡ goes_on kind byte }
{
    match kind {
        PieceKind::Word => is_word_byte(byte),
        PieceKind::Number => byte.is_ascii_digit(),
        PieceKind::Comment => byte != b'\n',
        PieceKind::Dash => byte == b'>',
        _ => false,
    }
}

fn limit(kind: PieceKind) -> Option<usize>
    ensures { result ≡ limit kind }
{
    match kind {
        PieceKind::Word => Some(32),
        PieceKind::Number => Some(16),
        PieceKind::Dash => Some(2),
        _ => None,
    }
}

fn token_kind(kind: PieceKind) -> Option<TokenKind>
    ensures { result ≡ token_kind kind }
{
    match kind {
        PieceKind::Blank | PieceKind::Comment => None,
        PieceKind::Word => Some(TokenKind::Word),
        PieceKind::Number => Some(TokenKind::Number),
        PieceKind::Dash | PieceKind::Mark => Some(TokenKind::Mark),
        PieceKind::Newline => Some(TokenKind::Newline),
    }
}

/// How many bytes at the front go on with a piece of the kind.
fn run(kind: PieceKind, bytes: &[u8]) -> usize
    ensures value { result ≡ prefix_len (goes_on kind) bytes.now }
    ensures within { result ≤ length bytes.now }
{
    let mut count = 0;
    'bytes: for byte in bytes {
        if !goes_on(kind, *byte) {
            return count;
        }
        count += 1;
    }
    count
}

fn front(bytes: &[u8]) -> Option<(u8, &[u8])>
    ensures { MatchOption result (bytes.now ≡ []) (λ x. bytes.now ≡ x.0 ∷ x.1.now) }
{
    match bytes {
        [] => None,
        [first, others @ ..] => Some((*first, others)),
    }
}

/// The most bytes of a piece of the kind, where `length` is more.
fn passed_limit(kind: PieceKind, length: usize) -> Option<usize>
    ensures { MatchOption result ((most : ℕ) → limit kind ≡ Some most → length ≤ most) (λ most. (limit kind ≡ Some most) × (most < length)) }
{
    match limit(kind) {
        Some(most) if most < length => Some(most),
        _ => None,
    }
}

/// Puts the token of a piece behind the others, if it is one.
fn push_piece(
    tokens: &mut Vec<Token>,
    kind: PieceKind,
    start: usize,
    end: usize,
) -> Result<(), AllocError>
    requires start_fits { start < 2 ^ 32 }
    requires end_fits { end < 2 ^ 32 }
    ensures { OnOk result (tokens.new.items ≡ tokens.old.items ++ option_to_list (option_map (λ kind. record { kind = kind; start = start; end = end }) (token_kind kind))) }
{
    if let Some(kind) = token_kind(kind) {
        let start = start as u32;
        let end = end as u32;
        tokens.push(Token { kind, start, end })?;
    }
    Ok(())
}

/// The tokens of a text, or the first byte that is in none.
pub fn tokens(alloc: Global, bytes: &[u8]) -> Result<Vec<Token>, TokenFault>
    requires { length bytes.now < 2 ^ 32 - 1 }

    // The answer is the token list of the text, which is slices of it in order.
    ensures found { IfOk result (λ v. AreTokens bytes.now v.items) }
    ensures slices { IfOk result (λ v. AreSlices bytes.now v.items) }

    // A text that has tokens gets these, unless memory runs out.
    ensures only { (ts : List Token) → AreTokens bytes.now ts → MatchResult result (λ v. v.items ≡ ts) (λ e. e ≡ TokenFault.NoMemory) }

    // A BadByte is the first bad byte; a text that has one gets it, unless memory runs out.
    ensures bad { IfErr result (IsCause bytes.now) }
    ensures refused { (n : ℕ) → IsBadAt bytes.now n → MatchResult result (λ _. ⊥) (λ e. (e ≡ TokenFault.BadByte (record { place = n })) ⊎ (e ≡ TokenFault.NoMemory)) }
{
    let mut tokens = Vec::new(alloc);
    let mut rest = bytes;
    let mut place = 0;
    'pieces: while let Some((first, others)) = front(rest) {
        let Some(kind) = kind_of(first) else {
            return Err(TokenFault::BadByte(BadByte { place }));
        };
        let more = run(kind, others);
        if let Some(most) = passed_limit(kind, 1 + more) {
            return Err(TokenFault::BadByte(BadByte {
                place: place + most,
            }));
        }
        let end = place + (1 + more);
        push_piece(&mut tokens, kind, place, end)?;
        rest = &others[more..];
        place = end;
    }
    Ok(tokens)
}
