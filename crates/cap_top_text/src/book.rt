// What stands behind each line.
use cap_grammar::Over;
use cap_names::{Handle, Items, Name};

/// A category that was made, and what it is over.
#[derive(Debug, Clone, Copy)]
pub struct Made {
    pub name: Name,
    pub over: Over,
}

/// A name that is bound, with the name of its category.
#[derive(Debug, Clone, Copy)]
pub struct Bound {
    pub name: Name,
    pub category: Name,
}

/// The categories that were made, the names that are bound, and the objects that have appeared, each with the number of its category; all in order.
#[derive(Debug, Drop)]
pub struct Book {
    pub made: Items<Made>,
    pub bound: Items<Bound>,
    pub seen: Items<(usize, Handle)>,
}
