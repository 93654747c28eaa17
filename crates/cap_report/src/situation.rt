// What stands before a command.
use crate::lines::LineAnswer;
use cap_names::{CatNo, Items, Name};

/// A category that was made: its name, its number among those made, from 0, and the category.
#[derive(Debug, Drop)]
pub struct Made<X> {
    pub name: Name,
    pub number: CatNo,
    pub category: X,
}

/// A name that a command binds, with what the command answered.
#[derive(Debug, Drop)]
pub struct Bound<M> {
    pub name: Name,
    pub answer: LineAnswer<M>,
}

/// What stands before a command: the tables and the categories that were made, and the names that were bound; all in order.
#[derive(Debug, Drop)]
pub struct Situation<X, T, M> {
    pub tables: Items<(Name, T)>,
    pub categories: Items<Made<X>>,
    pub bound: Items<Bound<M>>,
}
