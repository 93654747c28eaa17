// Events, replies, and entries of histories.
use crate::held::HeldPlan;
use cap_names::{Handle, Items, Name, OpId, SessionNo};
use cap_ops::{Choice, Key, PrimOut, Value};

/// What a session asks of a category.
#[derive(Debug, Drop)]
pub enum Event<O, M> {
    /// A primitive is registered with a weight.
    Register { op: OpId, weight: u32 },
    /// Registering ends.
    Finalise,
    /// An object gets a name.
    Declare { name: Name, object: O },
    /// The value of a key is asked for.
    Ask(Key<M>),
    /// The result of a key is to be kept.
    Put { key: Key<M>, out: PrimOut<O, M> },
    /// The plan is asked for.
    PlanOf,
}

/// A value with the objects that it names, each once, in order of first mention.
#[derive(Debug, Drop)]
pub struct Told<O, M> {
    pub value: Value<M>,
    pub objects: Items<(Handle, O)>,
}

/// What a category replies.
#[derive(Debug, Drop)]
pub enum Reply<O, M> {
    /// A primitive is registered.
    Done,
    /// Registering has ended, with this plan.
    Final(HeldPlan),
    /// The object of a declared name.
    Object(Handle),
    /// The kept value of the key that was asked for.
    Hit(Told<O, M>),
    /// No value is kept; what the plan does the operation by.
    Miss(Choice),
    /// The value that was put, which is kept from now on.
    Kept(Told<O, M>),
    /// The value that was kept for the key before.
    Found(Told<O, M>),
    /// The plan.
    PlanIs(HeldPlan),
    /// Registering ended before, at this place of the history, from 0.
    AlreadyFinal { at: u32 },
    /// Registering has not ended.
    NotFinal,
    /// The category doesn't offer the primitive.
    NotOffered,
    /// The primitive is registered with this weight.
    Twice { weight: u32 },
    /// The name is another object's: its handle and data.
    NameTaken { handle: Handle, object: O },
}

/// An event of a session with its reply.
#[derive(Debug, Drop)]
pub struct Entry<O, M> {
    pub session: SessionNo,
    pub event: Event<O, M>,
    pub reply: Reply<O, M>,
}
