// Kinds, registrations, costs of rules, and plans.
ghost use Rattle.std.specs.Prelude.{◌≡◌};
ghost use Rattle.cap_ops.specs.Derivations.{choice};
ghost use Rattle.cap_ops.specs.Ends.{IsOperation};

use cap_names::{OpId, RuleNo};

/// How many operations there are. The operation with number n stands at place n - 1 of each array.
pub const OPERATIONS: usize = 44;

/// The greatest weight of a primitive or of a rule's own.
pub const MOST_WEIGHT: u32 = 1_000_000;

/// The bound of an operation without a plan: one more than the greatest total weight.
pub const NO_PLAN: u64 = 1_000_000_000_000_001;

/// The four kinds of category: matrices, additive closures, Freyd categories, functor categories.
#[derive(Debug, Clone, Copy, PartialEq, Eq)]
pub enum Kind {
    Mat,
    Add,
    Freyd,
    Rep,
}

/// What an operation is done by.
#[derive(Debug, Clone, Copy, PartialEq, Eq)]
pub enum Choice {
    Prim,
    Rule(RuleNo),
    Missing,
}

/// The registered weight of each operation's primitive, where it is registered.
#[derive(Debug, Clone, Copy, PartialEq, Eq)]
pub struct Regs {
    pub weights: [Option<u32>; 44],
}

/// What a rule costs: its head, its own weight, its mark, and how often its body calls each operation.
#[derive(Debug, Clone, Copy, PartialEq, Eq)]
pub struct RuleCost {
    pub no: RuleNo,
    pub head: OpId,
    pub own: u32,
    pub abelian: bool,
    pub calls: [u8; 44],
}

/// A plan: for each operation what it is done by, and the least weight of its derivations.
#[derive(Debug, Clone, Copy, PartialEq, Eq)]
pub struct Plan {
    pub choices: [Choice; 44],
    pub bounds: [u64; 44],
}

/// What the plan does an operation by.
pub fn choice_of(plan: &Plan, op: OpId) -> Choice
    requires { IsOperation op.0 }
    ensures { result ≡ choice plan.now op.0 }
{
    plan.choices[op.0 as usize - 1]
}
