// The worked examples on the 59 rules.
mod rows;

ghost use Rattle.std.specs.List.{All};
ghost use Rattle.cap_ops.specs.Derivations.{IsWeight};

use cap_names::RuleNo;
use cap_ops::{Choice, Kind, NO_PLAN, Plan, Regs};
use cap_plan::plan;
use rows::costs;

/// The first operations, and kernels and lifts at 20: numbers of operations with their weights.
const KERNELS_AND_LIFTS: [(u8, u32); 9] = [
    (1, 1),
    (2, 1),
    (3, 1),
    (4, 1),
    (7, 1),
    (8, 2),
    (11, 5),
    (16, 20),
    (22, 20),
];

/// No operation registered.
fn nothing() -> Regs
    ensures { All IsWeight result.weights }
{
    Regs {
        weights: [None; 44],
    }
}

/// These operations, by number, registered with their weights, and one more.
fn registered(pairs: &[(u8, u32)], more: (u8, u32)) -> Regs
    ensures { All IsWeight result.weights }
{
    let mut regs = nothing();
    for (number, weight) in pairs {
        register(&mut regs, *number, *weight);
    }
    register(&mut regs, more.0, more.1);
    regs
}

/// Registers the operation, where it is one and the weight is in range.
fn register(regs: &mut Regs, number: u8, weight: u32)
    requires { All IsWeight regs.old.weights }
    ensures { All IsWeight regs.new.weights }
{
    if number > 0 && number <= 44 && weight > 0 && weight <= 1_000_000 {
        regs.weights[number as usize - 1] = Some(weight);
    }
}

/// How many operations are missing.
fn missing(plan: &Plan) -> usize {
    plan.choices
        .iter()
        .filter(|c| **c == Choice::Missing)
        .count()
}

/// The choice and the bound of the operation with this number.
fn line(plan: &Plan, number: usize) -> (Choice, u64) {
    if number > 0 && number <= 44 {
        (plan.choices[number - 1], plan.bounds[number - 1])
    } else {
        (Choice::Missing, 0)
    }
}

fn by(number: u8) -> Choice {
    Choice::Rule(RuleNo(number))
}

#[test]
fn least_weights_from_kernels_and_lifts(rt: HostRuntime) {
    let plan = plan(&registered(&KERNELS_AND_LIFTS, (1, 1)), &costs(), Kind::Mat);
    for (number, weight) in KERNELS_AND_LIFTS {
        assert_eq!(rt;
            line(&plan, number as usize),
            (Choice::Prim, weight as u64),
            "at {number}"
        );
    }
    for (number, choice, weight) in [
        (5, by(1), 2),
        (6, by(2), 4),
        (9, by(6), 4),
        (12, by(9), 6),
        (13, by(10), 6),
        (14, by(13), 32),
        (17, by(29), 21),
        (20, by(27), 21),
        (24, by(31), 25),
        (26, by(37), 28),
        (28, by(41), 23),
        (29, by(44), 27),
        (30, by(42), 22),
        (32, by(19), 25),
        (34, by(21), 34),
        (38, by(50), 23),
        (40, by(52), 36),
        (42, by(54), 21),
        (18, Choice::Missing, NO_PLAN),
    ] {
        assert_eq!(rt; line(&plan, number), (choice, weight), "at {number}");
    }
    assert_eq!(rt; missing(&plan), 17);
}

#[test]
fn a_pullback_makes_lighter_ways(rt: HostRuntime) {
    let plan = plan(
        &registered(&KERNELS_AND_LIFTS, (34, 10)),
        &costs(),
        Kind::Mat,
    );
    for (number, choice, weight) in [
        (16, Choice::Prim, 20),
        (24, by(33), 13),
        (32, by(58), 20),
        (40, by(52), 12),
    ] {
        assert_eq!(rt; line(&plan, number), (choice, weight), "at {number}");
    }
}

#[test]
fn a_tie_goes_to_the_earlier_rule(rt: HostRuntime) {
    let plan = plan(
        &registered(&KERNELS_AND_LIFTS, (23, 20)),
        &costs(),
        Kind::Mat,
    );
    assert_eq!(rt; line(&plan, 31), (by(43), 22));
    assert_eq!(rt; line(&plan, 29), (by(44), 27));
}

#[test]
fn rules_of_abelian_categories_are_not_for_additive_closures(rt: HostRuntime) {
    let regs = registered(&[(24, 1)], (25, 1));
    assert_eq!(rt;
        line(&plan(&regs, &costs(), Kind::Add), 26),
        (Choice::Missing, NO_PLAN)
    );
    for kind in [Kind::Mat, Kind::Freyd, Kind::Rep] {
        assert_eq!(rt; line(&plan(&regs, &costs(), kind), 26), (by(38), 3));
    }
}

#[test]
fn nothing_comes_of_nothing(rt: HostRuntime) {
    assert_eq!(rt; missing(&plan(&nothing(), &costs(), Kind::Mat)), 44);
}
