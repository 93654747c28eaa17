// The costs of two rules: Negate by Scale, and Subtract by Add and Negate.
ghost use Rattle.std.specs.List.{All};
ghost use Rattle.cap_ops.specs.Derivations.{IsCost};

use cap_names::{OpId, RuleNo};
use cap_ops::RuleCost;

pub const COSTS: [RuleCost; 2] = [
    RuleCost {
        no: RuleNo(1),
        head: OpId(5),
        own: 1,
        abelian: false,
        calls: [
            0, 0, 0, 0, 0, 0, 1, 0, 0, 0, 0, 0, 0, 0, 0, 0, 0, 0, 0, 0, 0, 0, 0, 0, 0, 0, 0, 0, 0,
            0, 0, 0, 0, 0, 0, 0, 0, 0, 0, 0, 0, 0, 0, 0,
        ],
    },
    RuleCost {
        no: RuleNo(2),
        head: OpId(6),
        own: 1,
        abelian: false,
        calls: [
            0, 0, 0, 1, 1, 0, 0, 0, 0, 0, 0, 0, 0, 0, 0, 0, 0, 0, 0, 0, 0, 0, 0, 0, 0, 0, 0, 0, 0,
            0, 0, 0, 0, 0, 0, 0, 0, 0, 0, 0, 0, 0, 0, 0,
        ],
    },
];

/// The costs of both.
pub fn costs() -> [RuleCost; 2]
    ensures { All IsCost result }
{
    COSTS
}
