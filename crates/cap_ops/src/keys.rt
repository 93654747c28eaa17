// Arguments, keys, and the answers of calls and of primitives.
use crate::arrows::{Arrow, OutArrow};
use cap_names::{Handle, Items, OpId};

/// An argument: an object, a morphism, or a residue.
#[derive(Debug, Drop)]
pub enum Arg<M> {
    Obj(Handle),
    Mor(Arrow<M>),
    Num(u16),
}

/// An operation with its arguments.
#[derive(Debug, Drop)]
pub struct Key<M> {
    pub op: OpId,
    pub args: Items<Arg<M>>,
}

/// What a call answers: a morphism, two or four, a truth, or `none`.
#[derive(Debug, Drop)]
pub enum Value<M> {
    One(Arrow<M>),
    Many(Items<Arrow<M>>),
    Truth(bool),
    Nothing,
}

/// What a primitive answers: as a value, but for ends at new objects.
#[derive(Debug, Drop)]
pub enum Out<M> {
    One(OutArrow<M>),
    Many(Items<OutArrow<M>>),
    Truth(bool),
    Nothing,
}

/// What a primitive answers, with its new objects.
#[derive(Debug, Drop)]
pub struct PrimOut<O, M> {
    pub fresh: Items<O>,
    pub out: Out<M>,
}
