// What a state keeps besides what it was made with.
use cap_history::{Entry, Finality, Keeping, Naming};
use cap_ops::Regs;

/// What a history says: the registered weights, the plan with its place, objects, names, kept values, cells; and the history.
#[derive(Drop)]
pub(crate) struct Parts<O, M> {
    pub(crate) regs: Regs,
    pub(crate) finality: Option<Finality>,
    pub(crate) objects: Vec<O>,
    pub(crate) names: Vec<Naming>,
    pub(crate) cache: Vec<Keeping<M>>,
    pub(crate) cells: u64,
    pub(crate) entries: Vec<Entry<O, M>>,
}

/// What one more entry adds.
#[derive(Drop)]
pub(crate) struct Added<O, M> {
    pub(crate) regs: Regs,
    pub(crate) finality: Option<Finality>,
    pub(crate) fresh: Vec<O>,
    pub(crate) naming: Option<Naming>,
    pub(crate) keeping: Option<Keeping<M>>,
    pub(crate) cells: u64,
}
