// What comes next in a text of certificates.

/// What comes next in a text of certificates. Places of operations count from 0.
#[derive(Debug, Clone, Copy, PartialEq, Eq)]
pub enum Next {
    /// A certificate's first word; or the end, where one was read.
    Start,
    /// The version's number.
    Version,
    /// The category's name.
    Name,
    /// The kind's word.
    Kind,
    /// The end of the first line.
    HeadEnd,
    /// The line of a registered operation at this place or behind it, or that of the first operation.
    Line(u8),
    /// The name of a registered operation at this place or behind it.
    RegName(u8),
    /// The weight of a registered operation.
    Weight(u8),
    /// The end of its line.
    RegEnd(u8),
    /// The line of the operation at this place, or the last line.
    OpLine(u8),
    /// The operation's name.
    OpName(u8),
    /// How the operation is done.
    Way(u8),
    /// The number of its rule.
    Rule(u8),
    /// Its bound.
    Bound(u8),
    /// The end of its line.
    OpEnd(u8),
    /// The end of the last line.
    LastEnd,
}

/// How far reading has come: how many certificates are read, and what comes next.
#[derive(Debug, Clone, Copy, PartialEq, Eq)]
pub struct State {
    pub read: usize,
    pub next: Next,
}
