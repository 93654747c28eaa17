// The category of a line.
use cap_grammar::Over;
use cap_names::Name;

/// The category of a line: its name, how many were made before it, and what it is over, if it was made.
#[derive(Debug, Clone, Copy)]
pub struct Home {
    pub name: Name,
    pub number: usize,
    pub over: Option<Over>,
}
