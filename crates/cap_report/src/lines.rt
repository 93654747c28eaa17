// What commands answer.
use cap_history::HeldPlan;
use cap_names::{Handle, Items, Name, OpId, TooLarge};
use cap_ops::{Arrow, Mismatch};

/// What a command answers.
#[derive(Debug, Drop)]
pub enum LineAnswer<M> {
    /// A category is made.
    Category,
    /// A primitive is registered with this weight.
    Registered { op: OpId, weight: u32 },
    /// Registering has ended.
    Final,
    /// The plan of the category.
    Plan(HeldPlan),
    /// An object, by its handle.
    Object(Handle),
    /// A morphism.
    Morphism(Arrow<M>),
    /// A tuple of morphisms.
    Tuple(Items<Arrow<M>>),
    /// A truth value.
    Truth(bool),
    /// There is none.
    Nothing,
    /// The command is refused, and binds nothing.
    Refused(LineRefusal),
}

/// Why a command is refused.
#[derive(Debug, Clone, Copy)]
pub enum LineRefusal {
    /// The category or value of this name was refused or is `none`.
    Lacks { name: Name },
    /// Two ends that must be one object are not.
    Mismatch(Mismatch),
    /// Registering has not ended.
    NotFinal,
    /// Registering ended before, at this place of the history, from 0.
    AlreadyFinal { at: u32 },
    /// The kind doesn't offer the primitive.
    NotOffered { op: OpId },
    /// The primitive is registered, with this weight.
    Twice { weight: u32 },
    /// The name stands for an object with other data.
    NameTaken { handle: Handle },
    /// No derivation of the operation weighs at most 10^15.
    Missing { op: OpId },
    /// A computation meets a matrix of this size, past the limits.
    TooLarge(TooLarge),
    /// This part of the literal has a wrong number of rows, columns or entries.
    Shape { part: u32 },
    /// The history is at its limit, with so many entries and cells.
    Full { entries: u32, cells: u64 },
}
