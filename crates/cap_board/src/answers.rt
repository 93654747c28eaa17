// What a board answers.
use cap_ops::{Choice, Value};

/// The answer to an ask: the kept value of the key, or what the operation is to be done by; or the category isn't final;
/// or its history is full.
#[derive(Debug, Drop)]
pub enum Asked<M> {
    Hit(Value<M>),
    Miss(Choice),
    NotFinal,
    Full { entries: u32, cells: u64 },
}

/// The answer to a put: the value that is kept, or the history is full.
#[derive(Debug, Drop)]
pub enum PutAnswer<M> {
    Entry(Value<M>),
    Full { entries: u32, cells: u64 },
}
