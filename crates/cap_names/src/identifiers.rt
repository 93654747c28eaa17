// Numbers that name operations, rules, categories, sessions and objects.

/// The number of one of the 44 operations, from 1.
#[derive(Debug, Clone, Copy, PartialEq, Eq)]
pub struct OpId(pub u8);

/// The number of one of the 59 derivation rules, from 1.
#[derive(Debug, Clone, Copy, PartialEq, Eq)]
pub struct RuleNo(pub u8);

/// The number of a category among those that were made, from 0.
#[derive(Debug, Clone, Copy, PartialEq, Eq)]
pub struct CatNo(pub u8);

/// The number of a session; 0 is the prelude.
#[derive(Debug, Clone, Copy, PartialEq, Eq)]
pub struct SessionNo(pub u8);

/// The number of an object of a category, from 0 in the order in which objects come to be.
#[derive(Debug, Clone, Copy, PartialEq, Eq)]
pub struct Handle(pub u32);
