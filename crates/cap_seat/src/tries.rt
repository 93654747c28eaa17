// What a session tried in a category.
use cap_history::{Entry, Event, Reply};

/// An event with its entry, or one that a full history refused, with the numbers of its entries and cells.
#[derive(Debug, Drop)]
pub enum Try<O, M> {
    Entered(Entry<O, M>),
    Full {
        event: Event<O, M>,
        entries: u32,
        cells: u64,
    },
}

/// What an event of a session was answered: the category's reply, or its history is full.
#[derive(Debug, Drop)]
pub enum Tried<O, M> {
    Replied(Reply<O, M>),
    Full { entries: u32, cells: u64 },
}
