// Why a script is refused, and where.
ghost use Rattle.std.specs.Prelude.{◌≡◌};
ghost use Rattle.cap_names.specs.Reasons.{reason_word};

use thiserror::Error;

/// Why a script is refused.
#[derive(Debug, Clone, Copy, PartialEq, Eq)]
pub enum Reason {
    /// A byte is in no token.
    Token,
    /// No script goes on with this token.
    Syntax,
    /// A name is not bound.
    Known,
    /// A name is bound already, or a thing is given twice.
    Taken,
    /// A wrong number, sort or category.
    Sort,
    /// A prime that is not in the table of fields.
    Prime,
    /// A limit is passed.
    Limit,
}

impl Reason {
    /// The word for the reason, as messages have it.
    pub fn word(self) -> &'static str
        ensures { result.now ≡ reason_word self }
    {
        match self {
            Reason::Token => "token",
            Reason::Syntax => "syntax",
            Reason::Known => "known",
            Reason::Taken => "taken",
            Reason::Sort => "sort",
            Reason::Prime => "prime",
            Reason::Limit => "limit",
        }
    }
}

/// The first fault of a script: its line and column, both from 1 and in bytes, and what is wrong there.
#[derive(Debug, Clone, Copy, PartialEq, Eq, Error)]
#[error("bad script: line {line} column {column} {}", .reason.word())]
pub struct BadScript {
    pub line: u32,
    pub column: u32,
    pub reason: Reason,
}
