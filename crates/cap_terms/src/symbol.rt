// Names for the objects of a body.

/// An object of a body, by name: a letter of the head's arguments, or a new letter of the operation that a step calls.
#[derive(Debug, Clone, Copy, PartialEq, Eq)]
pub enum Symbol {
    Given(u8),
    Made { step: u32, letter: u8 },
}
