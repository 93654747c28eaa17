// Tokens of a text, and why a text has none.
ghost use Rattle.std.specs.Prelude.{◌≡◌};
ghost use Rattle.cap_names.specs.declared.token.TokenFault.TheVariants as fault;

use crate::faults::NoMemory;
use std::alloc::AllocError;
use thiserror::Error;

/// What a piece of a text is, by its first byte. Blanks and comments are no tokens; a dash may be followed by `>`.
#[derive(Debug, Clone, Copy, PartialEq, Eq)]
pub enum PieceKind {
    Blank,
    Comment,
    Word,
    Number,
    Dash,
    Mark,
    Newline,
}

/// What a token is.
#[derive(Debug, Clone, Copy, PartialEq, Eq)]
pub enum TokenKind {
    /// A letter, then letters, digits and `_`: 32 bytes at most.
    Word,
    /// 1 to 16 digits.
    Number,
    /// One of `-> [ ] ( ) { } ; = . * + -`.
    Mark,
    /// An LF.
    Newline,
}

/// A token of a text: its text is the bytes from `start` up to `end`.
#[derive(Debug, Clone, Copy, PartialEq, Eq)]
pub struct Token {
    pub kind: TokenKind,
    pub start: u32,
    pub end: u32,
}

/// The place, in bytes from 0, of the first byte of a text that is in no token, blank or comment.
#[derive(Debug, Clone, Copy, PartialEq, Eq)]
pub struct BadByte {
    pub place: usize,
}

/// Why a text has no tokens, or why there are none to answer.
#[derive(Debug, Clone, Copy, PartialEq, Eq, Error)]
pub enum TokenFault {
    /// A byte that fits nothing, or that makes a word or number too long.
    #[error("byte {} is in no token", .0.place)]
    BadByte(BadByte),
    /// Memory ran out.
    #[error("out of memory")]
    NoMemory,
}

impl From<AllocError> for TokenFault {
    ghost from_gives = { λ _ e. e ≡ fault.NoMemory };

    fn from(_e: AllocError) -> TokenFault {
        TokenFault::NoMemory
    }
}
