// Morphisms by the ends that they name.
use cap_names::Handle;

/// A morphism: the handles of its source and target, and its data.
#[derive(Debug, Drop)]
pub struct Arrow<M> {
    pub src: Handle,
    pub tgt: Handle,
    pub value: M,
}

/// An end of a new morphism: an object that has a handle, or the new object at a place, from 0.
#[derive(Debug, Clone, Copy, PartialEq, Eq)]
pub enum End {
    Old(Handle),
    New(u32),
}

/// A morphism whose ends may be new objects.
#[derive(Debug, Drop)]
pub struct OutArrow<M> {
    pub src: End,
    pub tgt: End,
    pub value: M,
}
