// What a board that is a list keeps.
use cap_board::{Asked, PutAnswer};
use cap_ops::{Key, PrimOut, Value};

/// A key with its kept value.
#[derive(Debug, Drop)]
pub struct Entry<M> {
    pub key: Key<M>,
    pub value: Value<M>,
}

/// An ask or a put of a key, with its answer.
#[derive(Debug, Drop)]
pub enum Seen<O, M> {
    Ask {
        key: Key<M>,
        answer: Asked<M>,
    },
    Put {
        key: Key<M>,
        out: PrimOut<O, M>,
        answer: PutAnswer<M>,
    },
}
