// Steps, bodies and rules.
use cap_names::{Items, OpId};
use cap_ops::RuleCost;

/// A variable of a body: a parameter where the number is below the number of parameters, else the answer of the step
/// with the rest as its number. Both count from 0.
#[derive(Debug, Clone, Copy, PartialEq, Eq)]
pub struct Var(pub u8);

/// A step of a body. A step with a none among its variables answers none and calls nothing, but for `Exists`.
#[derive(Debug, Drop)]
pub enum Step {
    /// The call of an operation.
    Call { op: OpId, args: Items<Var> },
    /// The source of a morphism.
    Src(Var),
    /// The target of a morphism.
    Tgt(Var),
    /// A part of a tuple, the first being number 1.
    Part { of: Var, n: u8 },
    /// The scalar −1.
    MinusOne,
    /// Whether a value is not none.
    Exists(Var),
    /// The conjunction of two truths.
    Both(Var, Var),
    /// The second value where the first is true, else none.
    When(Var, Var),
    /// Two or four morphisms as a tuple.
    Tuple(Items<Var>),
}

/// The body of a rule: the number of its parameters, its steps, and the variable that is its answer.
#[derive(Debug, Drop)]
pub struct Body {
    pub params: u8,
    pub steps: Items<Step>,
    pub answer: Var,
}

/// A derivation rule: what it costs, and the body that computes its head.
#[derive(Debug, Drop)]
pub struct Rule {
    pub cost: RuleCost,
    pub body: Body,
}
