// What a token stands for in the grammar.
use cap_names::{Name, OpId};

/// The reserved words, the marks and the end of a line.
#[derive(Debug, Clone, Copy, PartialEq, Eq)]
pub enum Fixed {
    Table,
    Quiver,
    Prime,
    Bound,
    Objects,
    Basis,
    Unit,
    Product,
    Arrow,
    Relation,
    End,
    Category,
    Vec,
    Add,
    Freyd,
    Rep,
    Session,
    Register,
    Finalise,
    Plan,
    Object,
    Let,
    Src,
    Tgt,
    Dims,
    Maps,
    /// `->`
    To,
    /// `[`
    Open,
    /// `]`
    Close,
    /// `(`
    OpenRound,
    /// `)`
    CloseRound,
    /// `{`
    OpenBrace,
    /// `}`
    CloseBrace,
    /// `;`
    Semicolon,
    /// `=`
    Equals,
    /// `.`
    Dot,
    /// `*`
    Star,
    /// `+`
    Plus,
    /// `-`
    Minus,
    /// LF
    Newline,
}

/// What a token stands for: a reserved word or a mark, an operation, a name, or a number.
#[derive(Debug, Clone, Copy, PartialEq, Eq)]
pub enum Symbol {
    Fixed(Fixed),
    Operation(OpId),
    Name(Name),
    /// A number by its value, unless it is the token `0`.
    Number(u64),
    /// The token `0`: the number, and the empty combination.
    Nought,
}
