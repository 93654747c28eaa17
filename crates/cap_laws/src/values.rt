// What calls answer, and systems of linear equations between morphisms.
use cap_names::Items;

/// A direct sum s of two objects a and b: i1: a→s, i2: b→s, p1: s→a, p2: s→b.
#[derive(Debug, Drop)]
pub struct Sum<M> {
    pub i1: M,
    pub i2: M,
    pub p1: M,
    pub p2: M,
}

/// The term left·X·right, where X is the unknown of this number, from 0.
#[derive(Debug, Drop)]
pub struct Term<M> {
    pub left: M,
    pub unknown: u32,
    pub right: M,
}

/// The sum of the terms is congruent to the value; their ends are the value's.
#[derive(Debug, Drop)]
pub struct Equation<M> {
    pub terms: Items<Term<M>>,
    pub value: M,
}

/// Two-sided linear equations in unknown morphisms, each unknown with its source and its target.
#[derive(Debug, Drop)]
pub struct System<O, M> {
    pub unknowns: Items<(O, O)>,
    pub equations: Items<Equation<M>>,
}
