// What the rules cost.
ghost use Rattle.std.specs.Prelude.{◌≡◌, map};
ghost use Rattle.cap_ops.specs.Derivations.{AreCosts};
ghost use Rattle.cap_terms.specs.declared.body.Rule.{Rule};
ghost use Rattle.cap_rules.specs.Table.{rule_table};

use cap_names::RuleNo;
use cap_ops::RuleCost;
use cap_ops::operations::{
    ADD, COEQUALIZER, COIMAGE, COKERNEL, COKERNEL_COLIFT, COKERNEL_MAP, COLIFT, COPAIR, COPRODUCT,
    DIRECT_SUM, EQUALIZER, HOMOLOGY, IDENTITY, IMAGE, INTERSECTION, INVERSE, IS_CONGRUENT, IS_EPI,
    IS_EXACT, IS_ISO, IS_MONO, IS_SPLIT_EPI, IS_SPLIT_MONO, IS_SUBOBJECT, IS_ZERO, KERNEL,
    KERNEL_LIFT, KERNEL_MAP, LIFT, NEGATE, PAIR, PRODUCT, PULLBACK, PUSHOUT, RETRACTION, SECTION,
    SUBTRACT, UNION, WEAK_COKERNEL, WEAK_KERNEL, ZERO,
};

// How often each operation is called, in order of number.
const COSTS: [RuleCost; 59] = [
    RuleCost {
        no: RuleNo(1),
        head: NEGATE,
        own: 1,
        abelian: false,
        calls: [
            0, 0, 0, 0, 0, 0, 1, 0, 0, 0, 0, 0, 0, 0, 0, 0, 0, 0, 0, 0, 0, 0, 0, 0, 0, 0, 0, 0, 0,
            0, 0, 0, 0, 0, 0, 0, 0, 0, 0, 0, 0, 0, 0, 0,
        ],
    },
    RuleCost {
        no: RuleNo(2),
        head: SUBTRACT,
        own: 1,
        abelian: false,
        calls: [
            0, 0, 0, 1, 1, 0, 0, 0, 0, 0, 0, 0, 0, 0, 0, 0, 0, 0, 0, 0, 0, 0, 0, 0, 0, 0, 0, 0, 0,
            0, 0, 0, 0, 0, 0, 0, 0, 0, 0, 0, 0, 0, 0, 0,
        ],
    },
    RuleCost {
        no: RuleNo(3),
        head: ADD,
        own: 1,
        abelian: false,
        calls: [
            0, 0, 0, 0, 1, 1, 0, 0, 0, 0, 0, 0, 0, 0, 0, 0, 0, 0, 0, 0, 0, 0, 0, 0, 0, 0, 0, 0, 0,
            0, 0, 0, 0, 0, 0, 0, 0, 0, 0, 0, 0, 0, 0, 0,
        ],
    },
    RuleCost {
        no: RuleNo(4),
        head: NEGATE,
        own: 1,
        abelian: false,
        calls: [
            0, 0, 1, 0, 0, 1, 0, 0, 0, 0, 0, 0, 0, 0, 0, 0, 0, 0, 0, 0, 0, 0, 0, 0, 0, 0, 0, 0, 0,
            0, 0, 0, 0, 0, 0, 0, 0, 0, 0, 0, 0, 0, 0, 0,
        ],
    },
    RuleCost {
        no: RuleNo(5),
        head: ZERO,
        own: 1,
        abelian: false,
        calls: [
            0, 1, 0, 0, 0, 0, 0, 0, 0, 0, 1, 0, 0, 0, 0, 0, 0, 0, 0, 0, 0, 0, 0, 0, 0, 0, 0, 0, 0,
            0, 0, 0, 0, 0, 0, 0, 0, 0, 0, 0, 0, 0, 0, 0,
        ],
    },
    RuleCost {
        no: RuleNo(6),
        head: IS_ZERO,
        own: 1,
        abelian: false,
        calls: [
            0, 0, 1, 0, 0, 0, 0, 1, 0, 0, 0, 0, 0, 0, 0, 0, 0, 0, 0, 0, 0, 0, 0, 0, 0, 0, 0, 0, 0,
            0, 0, 0, 0, 0, 0, 0, 0, 0, 0, 0, 0, 0, 0, 0,
        ],
    },
    RuleCost {
        no: RuleNo(7),
        head: IS_CONGRUENT,
        own: 1,
        abelian: false,
        calls: [
            0, 0, 0, 0, 0, 1, 0, 0, 1, 0, 0, 0, 0, 0, 0, 0, 0, 0, 0, 0, 0, 0, 0, 0, 0, 0, 0, 0, 0,
            0, 0, 0, 0, 0, 0, 0, 0, 0, 0, 0, 0, 0, 0, 0,
        ],
    },
    RuleCost {
        no: RuleNo(8),
        head: IDENTITY,
        own: 1,
        abelian: false,
        calls: [
            0, 1, 0, 0, 0, 0, 0, 0, 0, 0, 1, 0, 0, 0, 0, 0, 0, 0, 0, 0, 0, 0, 0, 0, 0, 0, 0, 0, 0,
            0, 0, 0, 0, 0, 0, 0, 0, 0, 0, 0, 0, 0, 0, 0,
        ],
    },
    RuleCost {
        no: RuleNo(9),
        head: PRODUCT,
        own: 1,
        abelian: false,
        calls: [
            0, 0, 0, 0, 0, 0, 0, 0, 0, 0, 1, 0, 0, 0, 0, 0, 0, 0, 0, 0, 0, 0, 0, 0, 0, 0, 0, 0, 0,
            0, 0, 0, 0, 0, 0, 0, 0, 0, 0, 0, 0, 0, 0, 0,
        ],
    },
    RuleCost {
        no: RuleNo(10),
        head: COPRODUCT,
        own: 1,
        abelian: false,
        calls: [
            0, 0, 0, 0, 0, 0, 0, 0, 0, 0, 1, 0, 0, 0, 0, 0, 0, 0, 0, 0, 0, 0, 0, 0, 0, 0, 0, 0, 0,
            0, 0, 0, 0, 0, 0, 0, 0, 0, 0, 0, 0, 0, 0, 0,
        ],
    },
    RuleCost {
        no: RuleNo(11),
        head: DIRECT_SUM,
        own: 1,
        abelian: false,
        calls: [
            2, 0, 2, 0, 0, 0, 0, 0, 0, 0, 0, 1, 0, 2, 0, 0, 0, 0, 0, 0, 0, 0, 0, 0, 0, 0, 0, 0, 0,
            0, 0, 0, 0, 0, 0, 0, 0, 0, 0, 0, 0, 0, 0, 0,
        ],
    },
    RuleCost {
        no: RuleNo(12),
        head: DIRECT_SUM,
        own: 1,
        abelian: false,
        calls: [
            2, 0, 2, 0, 0, 0, 0, 0, 0, 0, 0, 0, 1, 0, 2, 0, 0, 0, 0, 0, 0, 0, 0, 0, 0, 0, 0, 0, 0,
            0, 0, 0, 0, 0, 0, 0, 0, 0, 0, 0, 0, 0, 0, 0,
        ],
    },
    RuleCost {
        no: RuleNo(13),
        head: PAIR,
        own: 1,
        abelian: false,
        calls: [
            0, 4, 0, 2, 0, 0, 0, 0, 0, 0, 1, 0, 0, 0, 0, 0, 0, 0, 0, 0, 0, 1, 0, 0, 0, 0, 0, 0, 0,
            0, 0, 0, 0, 0, 0, 0, 0, 0, 0, 0, 0, 0, 0, 0,
        ],
    },
    RuleCost {
        no: RuleNo(14),
        head: COPAIR,
        own: 1,
        abelian: false,
        calls: [
            0, 4, 0, 2, 0, 0, 0, 0, 0, 0, 1, 0, 0, 0, 0, 0, 0, 0, 0, 0, 0, 0, 1, 0, 0, 0, 0, 0, 0,
            0, 0, 0, 0, 0, 0, 0, 0, 0, 0, 0, 0, 0, 0, 0,
        ],
    },
    RuleCost {
        no: RuleNo(15),
        head: LIFT,
        own: 1,
        abelian: false,
        calls: [
            0, 0, 0, 0, 0, 0, 0, 0, 0, 0, 0, 0, 0, 1, 0, 0, 0, 0, 0, 0, 0, 0, 0, 0, 0, 0, 0, 0, 0,
            0, 0, 0, 0, 0, 0, 0, 0, 0, 0, 0, 0, 0, 0, 0,
        ],
    },
    RuleCost {
        no: RuleNo(16),
        head: COLIFT,
        own: 1,
        abelian: false,
        calls: [
            0, 0, 0, 0, 0, 0, 0, 0, 0, 0, 0, 0, 0, 0, 1, 0, 0, 0, 0, 0, 0, 0, 0, 0, 0, 0, 0, 0, 0,
            0, 0, 0, 0, 0, 0, 0, 0, 0, 0, 0, 0, 0, 0, 0,
        ],
    },
    RuleCost {
        no: RuleNo(17),
        head: KERNEL,
        own: 1,
        abelian: false,
        calls: [
            0, 0, 1, 0, 0, 0, 0, 0, 0, 0, 0, 0, 0, 0, 0, 0, 0, 0, 0, 0, 0, 0, 0, 0, 0, 0, 0, 0, 0,
            0, 0, 1, 0, 0, 0, 0, 0, 0, 0, 0, 0, 0, 0, 0,
        ],
    },
    RuleCost {
        no: RuleNo(18),
        head: COKERNEL,
        own: 1,
        abelian: false,
        calls: [
            0, 0, 1, 0, 0, 0, 0, 0, 0, 0, 0, 0, 0, 0, 0, 0, 0, 0, 0, 0, 0, 0, 0, 0, 0, 0, 0, 0, 0,
            0, 0, 0, 1, 0, 0, 0, 0, 0, 0, 0, 0, 0, 0, 0,
        ],
    },
    RuleCost {
        no: RuleNo(19),
        head: EQUALIZER,
        own: 1,
        abelian: false,
        calls: [
            0, 0, 0, 0, 0, 1, 0, 0, 0, 0, 0, 0, 0, 0, 0, 1, 0, 0, 0, 0, 0, 0, 0, 0, 0, 0, 0, 0, 0,
            0, 0, 0, 0, 0, 0, 0, 0, 0, 0, 0, 0, 0, 0, 0,
        ],
    },
    RuleCost {
        no: RuleNo(20),
        head: COEQUALIZER,
        own: 1,
        abelian: false,
        calls: [
            0, 0, 0, 0, 0, 1, 0, 0, 0, 0, 0, 0, 0, 0, 0, 0, 0, 1, 0, 0, 0, 0, 0, 0, 0, 0, 0, 0, 0,
            0, 0, 0, 0, 0, 0, 0, 0, 0, 0, 0, 0, 0, 0, 0,
        ],
    },
    RuleCost {
        no: RuleNo(21),
        head: PULLBACK,
        own: 1,
        abelian: false,
        calls: [
            0, 4, 0, 0, 0, 1, 0, 0, 0, 0, 1, 0, 0, 0, 0, 1, 0, 0, 0, 0, 0, 0, 0, 0, 0, 0, 0, 0, 0,
            0, 0, 0, 0, 0, 0, 0, 0, 0, 0, 0, 0, 0, 0, 0,
        ],
    },
    RuleCost {
        no: RuleNo(22),
        head: PUSHOUT,
        own: 1,
        abelian: false,
        calls: [
            0, 4, 0, 0, 0, 1, 0, 0, 0, 0, 1, 0, 0, 0, 0, 0, 0, 1, 0, 0, 0, 0, 0, 0, 0, 0, 0, 0, 0,
            0, 0, 0, 0, 0, 0, 0, 0, 0, 0, 0, 0, 0, 0, 0,
        ],
    },
    RuleCost {
        no: RuleNo(23),
        head: PULLBACK,
        own: 1,
        abelian: false,
        calls: [
            0, 4, 0, 0, 0, 0, 0, 0, 0, 0, 0, 1, 0, 0, 0, 0, 0, 0, 0, 0, 0, 0, 0, 0, 0, 0, 0, 0, 0,
            0, 0, 1, 0, 0, 0, 0, 0, 0, 0, 0, 0, 0, 0, 0,
        ],
    },
    RuleCost {
        no: RuleNo(24),
        head: PUSHOUT,
        own: 1,
        abelian: false,
        calls: [
            0, 4, 0, 0, 0, 0, 0, 0, 0, 0, 0, 0, 1, 0, 0, 0, 0, 0, 0, 0, 0, 0, 0, 0, 0, 0, 0, 0, 0,
            0, 0, 0, 1, 0, 0, 0, 0, 0, 0, 0, 0, 0, 0, 0,
        ],
    },
    RuleCost {
        no: RuleNo(25),
        head: KERNEL,
        own: 1,
        abelian: false,
        calls: [
            0, 0, 1, 0, 0, 0, 0, 0, 0, 1, 0, 0, 0, 0, 0, 0, 0, 0, 0, 0, 0, 0, 0, 0, 0, 0, 0, 0, 0,
            0, 0, 0, 0, 1, 0, 0, 0, 0, 0, 0, 0, 0, 0, 0,
        ],
    },
    RuleCost {
        no: RuleNo(26),
        head: COKERNEL,
        own: 1,
        abelian: false,
        calls: [
            0, 0, 1, 0, 0, 0, 0, 0, 0, 1, 0, 0, 0, 0, 0, 0, 0, 0, 0, 0, 0, 0, 0, 0, 0, 0, 0, 0, 0,
            0, 0, 0, 0, 0, 1, 0, 0, 0, 0, 0, 0, 0, 0, 0,
        ],
    },
    RuleCost {
        no: RuleNo(27),
        head: WEAK_KERNEL,
        own: 1,
        abelian: false,
        calls: [
            0, 0, 0, 0, 0, 0, 0, 0, 0, 0, 0, 0, 0, 0, 0, 1, 0, 0, 0, 0, 0, 0, 0, 0, 0, 0, 0, 0, 0,
            0, 0, 0, 0, 0, 0, 0, 0, 0, 0, 0, 0, 0, 0, 0,
        ],
    },
    RuleCost {
        no: RuleNo(28),
        head: WEAK_COKERNEL,
        own: 1,
        abelian: false,
        calls: [
            0, 0, 0, 0, 0, 0, 0, 0, 0, 0, 0, 0, 0, 0, 0, 0, 0, 1, 0, 0, 0, 0, 0, 0, 0, 0, 0, 0, 0,
            0, 0, 0, 0, 0, 0, 0, 0, 0, 0, 0, 0, 0, 0, 0,
        ],
    },
    RuleCost {
        no: RuleNo(29),
        head: KERNEL_LIFT,
        own: 1,
        abelian: false,
        calls: [
            0, 0, 0, 0, 0, 0, 0, 0, 0, 0, 0, 0, 0, 0, 0, 0, 0, 0, 0, 0, 0, 1, 0, 0, 0, 0, 0, 0, 0,
            0, 0, 0, 0, 0, 0, 0, 0, 0, 0, 0, 0, 0, 0, 0,
        ],
    },
    RuleCost {
        no: RuleNo(30),
        head: COKERNEL_COLIFT,
        own: 1,
        abelian: false,
        calls: [
            0, 0, 0, 0, 0, 0, 0, 0, 0, 0, 0, 0, 0, 0, 0, 0, 0, 0, 0, 0, 0, 0, 1, 0, 0, 0, 0, 0, 0,
            0, 0, 0, 0, 0, 0, 0, 0, 0, 0, 0, 0, 0, 0, 0,
        ],
    },
    RuleCost {
        no: RuleNo(31),
        head: IS_MONO,
        own: 1,
        abelian: false,
        calls: [
            0, 0, 0, 0, 0, 0, 0, 0, 1, 0, 0, 0, 0, 0, 0, 1, 0, 0, 0, 0, 0, 0, 0, 0, 0, 0, 0, 0, 0,
            0, 0, 0, 0, 0, 0, 0, 0, 0, 0, 0, 0, 0, 0, 0,
        ],
    },
    RuleCost {
        no: RuleNo(32),
        head: IS_EPI,
        own: 1,
        abelian: false,
        calls: [
            0, 0, 0, 0, 0, 0, 0, 0, 1, 0, 0, 0, 0, 0, 0, 0, 0, 1, 0, 0, 0, 0, 0, 0, 0, 0, 0, 0, 0,
            0, 0, 0, 0, 0, 0, 0, 0, 0, 0, 0, 0, 0, 0, 0,
        ],
    },
    RuleCost {
        no: RuleNo(33),
        head: IS_MONO,
        own: 1,
        abelian: false,
        calls: [
            0, 0, 0, 0, 0, 0, 0, 1, 0, 0, 0, 0, 0, 0, 0, 0, 0, 0, 0, 0, 0, 0, 0, 0, 0, 0, 0, 0, 0,
            0, 0, 0, 0, 1, 0, 0, 0, 0, 0, 0, 0, 0, 0, 0,
        ],
    },
    RuleCost {
        no: RuleNo(34),
        head: IS_EPI,
        own: 1,
        abelian: false,
        calls: [
            0, 0, 0, 0, 0, 0, 0, 1, 0, 0, 0, 0, 0, 0, 0, 0, 0, 0, 0, 0, 0, 0, 0, 0, 0, 0, 0, 0, 0,
            0, 0, 0, 0, 0, 1, 0, 0, 0, 0, 0, 0, 0, 0, 0,
        ],
    },
    RuleCost {
        no: RuleNo(35),
        head: IS_MONO,
        own: 1,
        abelian: false,
        calls: [
            0, 0, 0, 0, 0, 0, 0, 0, 1, 0, 0, 0, 0, 0, 0, 0, 0, 0, 0, 1, 0, 0, 0, 0, 0, 0, 0, 0, 0,
            0, 0, 0, 0, 0, 0, 0, 0, 0, 0, 0, 0, 0, 0, 0,
        ],
    },
    RuleCost {
        no: RuleNo(36),
        head: IS_EPI,
        own: 1,
        abelian: false,
        calls: [
            0, 0, 0, 0, 0, 0, 0, 0, 1, 0, 0, 0, 0, 0, 0, 0, 0, 0, 0, 0, 1, 0, 0, 0, 0, 0, 0, 0, 0,
            0, 0, 0, 0, 0, 0, 0, 0, 0, 0, 0, 0, 0, 0, 0,
        ],
    },
    RuleCost {
        no: RuleNo(37),
        head: IS_ISO,
        own: 1,
        abelian: false,
        calls: [
            0, 0, 0, 0, 0, 0, 0, 0, 0, 0, 0, 0, 0, 0, 0, 0, 0, 0, 0, 0, 0, 0, 0, 0, 0, 0, 0, 0, 1,
            0, 0, 0, 0, 0, 0, 0, 0, 0, 0, 0, 0, 0, 0, 0,
        ],
    },
    RuleCost {
        no: RuleNo(38),
        head: IS_ISO,
        own: 1,
        abelian: true,
        calls: [
            0, 0, 0, 0, 0, 0, 0, 0, 0, 0, 0, 0, 0, 0, 0, 0, 0, 0, 0, 0, 0, 0, 0, 1, 1, 0, 0, 0, 0,
            0, 0, 0, 0, 0, 0, 0, 0, 0, 0, 0, 0, 0, 0, 0,
        ],
    },
    RuleCost {
        no: RuleNo(39),
        head: IS_ISO,
        own: 1,
        abelian: false,
        calls: [
            0, 0, 0, 0, 0, 0, 0, 0, 0, 0, 0, 0, 0, 0, 0, 0, 0, 0, 0, 0, 0, 0, 0, 0, 0, 0, 1, 1, 0,
            0, 0, 0, 0, 0, 0, 0, 0, 0, 0, 0, 0, 0, 0, 0,
        ],
    },
    RuleCost {
        no: RuleNo(40),
        head: IS_SPLIT_MONO,
        own: 1,
        abelian: false,
        calls: [
            0, 0, 0, 0, 0, 0, 0, 0, 0, 0, 0, 0, 0, 0, 0, 0, 0, 0, 0, 0, 0, 0, 0, 0, 0, 0, 0, 0, 0,
            0, 1, 0, 0, 0, 0, 0, 0, 0, 0, 0, 0, 0, 0, 0,
        ],
    },
    RuleCost {
        no: RuleNo(41),
        head: IS_SPLIT_EPI,
        own: 1,
        abelian: false,
        calls: [
            0, 0, 0, 0, 0, 0, 0, 0, 0, 0, 0, 0, 0, 0, 0, 0, 0, 0, 0, 0, 0, 0, 0, 0, 0, 0, 0, 0, 0,
            1, 0, 0, 0, 0, 0, 0, 0, 0, 0, 0, 0, 0, 0, 0,
        ],
    },
    RuleCost {
        no: RuleNo(42),
        head: SECTION,
        own: 1,
        abelian: false,
        calls: [
            1, 0, 0, 0, 0, 0, 0, 0, 0, 0, 0, 0, 0, 0, 0, 0, 0, 0, 0, 0, 0, 1, 0, 0, 0, 0, 0, 0, 0,
            0, 0, 0, 0, 0, 0, 0, 0, 0, 0, 0, 0, 0, 0, 0,
        ],
    },
    RuleCost {
        no: RuleNo(43),
        head: RETRACTION,
        own: 1,
        abelian: false,
        calls: [
            1, 0, 0, 0, 0, 0, 0, 0, 0, 0, 0, 0, 0, 0, 0, 0, 0, 0, 0, 0, 0, 0, 1, 0, 0, 0, 0, 0, 0,
            0, 0, 0, 0, 0, 0, 0, 0, 0, 0, 0, 0, 0, 0, 0,
        ],
    },
    RuleCost {
        no: RuleNo(44),
        head: INVERSE,
        own: 1,
        abelian: false,
        calls: [
            1, 1, 0, 0, 0, 0, 0, 1, 0, 0, 0, 0, 0, 0, 0, 0, 0, 0, 0, 0, 0, 0, 0, 0, 0, 0, 0, 0, 0,
            1, 0, 0, 0, 0, 0, 0, 0, 0, 0, 0, 0, 0, 0, 0,
        ],
    },
    RuleCost {
        no: RuleNo(45),
        head: INVERSE,
        own: 1,
        abelian: false,
        calls: [
            1, 1, 0, 0, 0, 0, 0, 1, 0, 0, 0, 0, 0, 0, 0, 0, 0, 0, 0, 0, 0, 0, 0, 0, 0, 0, 0, 0, 0,
            0, 1, 0, 0, 0, 0, 0, 0, 0, 0, 0, 0, 0, 0, 0,
        ],
    },
    RuleCost {
        no: RuleNo(46),
        head: IMAGE,
        own: 1,
        abelian: true,
        calls: [
            0, 0, 0, 0, 0, 0, 0, 0, 0, 0, 0, 0, 0, 0, 0, 1, 1, 1, 0, 0, 0, 0, 0, 0, 0, 0, 0, 0, 0,
            0, 0, 0, 0, 0, 0, 0, 0, 0, 0, 0, 0, 0, 0, 0,
        ],
    },
    RuleCost {
        no: RuleNo(47),
        head: COIMAGE,
        own: 1,
        abelian: true,
        calls: [
            0, 0, 0, 0, 0, 0, 0, 0, 0, 0, 0, 0, 0, 0, 0, 1, 0, 1, 1, 0, 0, 0, 0, 0, 0, 0, 0, 0, 0,
            0, 0, 0, 0, 0, 0, 0, 0, 0, 0, 0, 0, 0, 0, 0,
        ],
    },
    RuleCost {
        no: RuleNo(48),
        head: IMAGE,
        own: 1,
        abelian: true,
        calls: [
            0, 0, 0, 0, 0, 0, 0, 0, 0, 0, 0, 0, 0, 0, 0, 0, 0, 0, 0, 0, 0, 0, 0, 0, 0, 0, 0, 0, 0,
            0, 0, 0, 0, 0, 0, 0, 1, 0, 0, 0, 0, 0, 0, 0,
        ],
    },
    RuleCost {
        no: RuleNo(49),
        head: COIMAGE,
        own: 1,
        abelian: true,
        calls: [
            0, 0, 0, 0, 0, 0, 0, 0, 0, 0, 0, 0, 0, 0, 0, 0, 0, 0, 0, 0, 0, 0, 0, 0, 0, 0, 0, 0, 0,
            0, 0, 0, 0, 0, 0, 1, 0, 0, 0, 0, 0, 0, 0, 0,
        ],
    },
    RuleCost {
        no: RuleNo(50),
        head: KERNEL_MAP,
        own: 1,
        abelian: false,
        calls: [
            0, 1, 0, 0, 0, 0, 0, 0, 0, 0, 0, 0, 0, 0, 0, 0, 1, 0, 0, 0, 0, 0, 0, 0, 0, 0, 0, 0, 0,
            0, 0, 0, 0, 0, 0, 0, 0, 0, 0, 0, 0, 0, 0, 0,
        ],
    },
    RuleCost {
        no: RuleNo(51),
        head: COKERNEL_MAP,
        own: 1,
        abelian: false,
        calls: [
            0, 1, 0, 0, 0, 0, 0, 0, 0, 0, 0, 0, 0, 0, 0, 0, 0, 0, 1, 0, 0, 0, 0, 0, 0, 0, 0, 0, 0,
            0, 0, 0, 0, 0, 0, 0, 0, 0, 0, 0, 0, 0, 0, 0,
        ],
    },
    RuleCost {
        no: RuleNo(52),
        head: INTERSECTION,
        own: 1,
        abelian: false,
        calls: [
            0, 1, 0, 0, 0, 0, 0, 0, 0, 0, 0, 0, 0, 0, 0, 0, 0, 0, 0, 0, 0, 0, 0, 0, 0, 0, 0, 0, 0,
            0, 0, 0, 0, 1, 0, 0, 0, 0, 0, 0, 0, 0, 0, 0,
        ],
    },
    RuleCost {
        no: RuleNo(53),
        head: UNION,
        own: 1,
        abelian: false,
        calls: [
            0, 0, 0, 0, 0, 0, 0, 0, 0, 0, 0, 0, 1, 0, 1, 0, 0, 0, 0, 0, 0, 0, 0, 0, 0, 0, 0, 0, 0,
            0, 0, 0, 0, 0, 0, 1, 0, 0, 0, 0, 0, 0, 0, 0,
        ],
    },
    RuleCost {
        no: RuleNo(54),
        head: IS_SUBOBJECT,
        own: 1,
        abelian: false,
        calls: [
            0, 0, 0, 0, 0, 0, 0, 0, 0, 0, 0, 0, 0, 0, 0, 0, 0, 0, 0, 0, 0, 1, 0, 0, 0, 0, 0, 0, 0,
            0, 0, 0, 0, 0, 0, 0, 0, 0, 0, 0, 0, 0, 0, 0,
        ],
    },
    RuleCost {
        no: RuleNo(55),
        head: HOMOLOGY,
        own: 1,
        abelian: false,
        calls: [
            0, 0, 0, 0, 0, 0, 0, 0, 0, 0, 0, 0, 0, 0, 0, 1, 1, 1, 0, 0, 0, 0, 0, 0, 0, 0, 0, 0, 0,
            0, 0, 0, 0, 0, 0, 0, 0, 0, 0, 0, 0, 0, 0, 0,
        ],
    },
    RuleCost {
        no: RuleNo(56),
        head: IS_EXACT,
        own: 1,
        abelian: false,
        calls: [
            0, 2, 0, 0, 0, 0, 0, 0, 2, 0, 0, 0, 0, 0, 0, 1, 0, 1, 0, 0, 0, 0, 0, 0, 0, 0, 0, 0, 0,
            0, 0, 0, 0, 0, 0, 0, 0, 0, 0, 0, 0, 0, 0, 0,
        ],
    },
    RuleCost {
        no: RuleNo(57),
        head: IS_EXACT,
        own: 1,
        abelian: false,
        calls: [
            0, 2, 0, 0, 0, 0, 0, 0, 2, 0, 0, 0, 0, 0, 0, 0, 0, 0, 0, 1, 1, 0, 0, 0, 0, 0, 0, 0, 0,
            0, 0, 0, 0, 0, 0, 0, 0, 0, 0, 0, 0, 0, 0, 0,
        ],
    },
    RuleCost {
        no: RuleNo(58),
        head: EQUALIZER,
        own: 1,
        abelian: false,
        calls: [
            0, 2, 0, 2, 0, 0, 0, 0, 0, 0, 1, 0, 0, 0, 0, 0, 0, 0, 0, 0, 0, 0, 0, 0, 0, 0, 0, 0, 0,
            0, 0, 0, 0, 1, 0, 0, 0, 0, 0, 0, 0, 0, 0, 0,
        ],
    },
    RuleCost {
        no: RuleNo(59),
        head: COEQUALIZER,
        own: 1,
        abelian: false,
        calls: [
            0, 2, 0, 2, 0, 0, 0, 0, 0, 0, 1, 0, 0, 0, 0, 0, 0, 0, 0, 0, 0, 0, 0, 0, 0, 0, 0, 0, 0,
            0, 0, 0, 0, 0, 1, 0, 0, 0, 0, 0, 0, 0, 0, 0,
        ],
    },
];

/// The costs of the 59 rules, in order of number.
pub fn costs() -> [RuleCost; 59]
    ensures table { result ≡ map (λ (r : Rule). r.cost) rule_table }
    ensures costs { AreCosts result }
{
    COSTS
}
