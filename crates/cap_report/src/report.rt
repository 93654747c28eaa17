// Reports of runs.
use crate::lines::LineAnswer;
use cap_history::Entry;
use cap_names::{CatNo, Items, SessionNo};
use cap_ops::Plan;

/// The history of a category.
#[derive(Debug, Drop)]
pub struct History<O, M> {
    pub cat: CatNo,
    pub entries: Items<Entry<O, M>>,
}

/// The events of a session in their order, each with its category, and what its commands answered.
#[derive(Debug, Drop)]
pub struct Trace<O, M> {
    pub session: SessionNo,
    pub events: Items<(CatNo, Entry<O, M>)>,
    pub done: Items<Done<M>>,
}

/// What a command answered. The commands of a session count from 0, and so do all parts of a prelude.
#[derive(Debug, Drop)]
pub struct Done<M> {
    pub command: u32,
    pub answer: LineAnswer<M>,
}

/// The histories of the categories in order, the traces of the prelude and of each session in order, and the plans of the final categories in order.
#[derive(Debug, Drop)]
pub struct Report<O, M> {
    pub histories: Items<History<O, M>>,
    pub traces: Items<Trace<O, M>>,
    pub plans: Items<Plan>,
}
