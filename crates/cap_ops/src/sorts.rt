// The sorts of values.

/// A sort of values; tuples have two or four morphisms.
#[derive(Debug, Clone, Copy, PartialEq, Eq)]
pub enum Sort {
    Obj,
    Mor,
    Num,
    Truth,
    Tuple(u8),
}

/// The sorts of an operation's arguments in order, None after the last, and of an answer that is not none.
#[derive(Debug, Clone, Copy, PartialEq, Eq)]
pub struct Signature {
    pub args: [Option<Sort>; 4],
    pub answer: Sort,
}
