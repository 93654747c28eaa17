// Bodies that are typed and bodies that are not.
use cap_names::{Items, OpId};
use cap_ops::operations::{
    ADD, COKERNEL, COMPOSE, DIRECT_SUM, IDENTITY, IS_CONGRUENT, IS_ISO, IS_MONO, IS_ZERO, KERNEL,
    NEGATE, PRODUCT, PULLBACK, SCALE, SUBTRACT,
};
use cap_terms::{BadStep, Body, Step, Var, check_term, multiplicity};
use std::alloc::{AllocFailed, Global};
use std::test::Fail;

#[derive(Clone, Copy)]
enum Line {
    Call(OpId, &'static [u8]),
    Src(u8),
    Part(u8, u8),
    MinusOne,
    Exists(u8),
    Both(u8, u8),
    When(u8, u8),
    Tuple(&'static [u8]),
}

#[derive(Clone, Copy)]
struct Case {
    shows: &'static str,
    head: OpId,
    params: u8,
    lines: &'static [Line],
    answer: u8,
    fault: Option<u32>,
}

static CASES: [Case; 24] = [
    Case {
        shows: "a difference",
        head: SUBTRACT,
        params: 2,
        lines: &[Line::Call(NEGATE, &[1]), Line::Call(ADD, &[0, 2])],
        answer: 3,
        fault: None,
    },
    Case {
        shows: "a parameter too few",
        head: SUBTRACT,
        params: 1,
        lines: &[Line::Call(NEGATE, &[0])],
        answer: 1,
        fault: Some(0),
    },
    Case {
        shows: "no operation 0",
        head: OpId(0),
        params: 0,
        lines: &[],
        answer: 0,
        fault: Some(0),
    },
    Case {
        shows: "no operation 45",
        head: OpId(45),
        params: 0,
        lines: &[],
        answer: 0,
        fault: Some(0),
    },
    Case {
        shows: "composition the other way round",
        head: COMPOSE,
        params: 2,
        lines: &[Line::Call(COMPOSE, &[1, 0])],
        answer: 2,
        fault: Some(0),
    },
    Case {
        shows: "a morphism in place of a number",
        head: NEGATE,
        params: 1,
        lines: &[Line::MinusOne, Line::Call(SCALE, &[0, 1])],
        answer: 2,
        fault: Some(1),
    },
    Case {
        shows: "a cokernel for a kernel",
        head: KERNEL,
        params: 1,
        lines: &[Line::Call(COKERNEL, &[0])],
        answer: 1,
        fault: Some(1),
    },
    Case {
        shows: "the third part of a pair",
        head: IS_MONO,
        params: 1,
        lines: &[Line::Call(PULLBACK, &[0, 0]), Line::Part(1, 3)],
        answer: 2,
        fault: Some(1),
    },
    Case {
        shows: "part 0",
        head: IS_MONO,
        params: 1,
        lines: &[Line::Call(PULLBACK, &[0, 0]), Line::Part(1, 0)],
        answer: 2,
        fault: Some(1),
    },
    Case {
        shows: "a part of a morphism",
        head: IS_MONO,
        params: 1,
        lines: &[Line::Part(0, 1)],
        answer: 1,
        fault: Some(0),
    },
    Case {
        shows: "a step that names itself",
        head: IS_MONO,
        params: 1,
        lines: &[Line::Call(KERNEL, &[1])],
        answer: 1,
        fault: Some(0),
    },
    Case {
        shows: "the source of an object",
        head: IDENTITY,
        params: 1,
        lines: &[Line::Src(0)],
        answer: 1,
        fault: Some(0),
    },
    Case {
        shows: "whether an object exists",
        head: IS_ISO,
        params: 1,
        lines: &[Line::Src(0), Line::Exists(1)],
        answer: 2,
        fault: Some(1),
    },
    Case {
        shows: "both of two morphisms",
        head: IS_ISO,
        params: 1,
        lines: &[Line::Both(0, 0)],
        answer: 1,
        fault: Some(0),
    },
    Case {
        shows: "an object under a condition",
        head: IS_ISO,
        params: 1,
        lines: &[Line::Call(IS_ZERO, &[0]), Line::Src(0), Line::When(1, 2)],
        answer: 1,
        fault: Some(2),
    },
    Case {
        shows: "a morphism as condition",
        head: IS_ISO,
        params: 1,
        lines: &[Line::When(0, 0)],
        answer: 1,
        fault: Some(0),
    },
    Case {
        shows: "a tuple of three",
        head: IS_ISO,
        params: 1,
        lines: &[Line::Tuple(&[0, 0, 0])],
        answer: 1,
        fault: Some(0),
    },
    Case {
        shows: "kernels of two calls",
        head: IS_ISO,
        params: 1,
        lines: &[
            Line::Call(KERNEL, &[0]),
            Line::Call(KERNEL, &[0]),
            Line::Call(IS_CONGRUENT, &[1, 2]),
        ],
        answer: 3,
        fault: Some(2),
    },
    Case {
        shows: "an argument too few",
        head: COMPOSE,
        params: 2,
        lines: &[Line::Call(COMPOSE, &[0])],
        answer: 2,
        fault: Some(0),
    },
    Case {
        shows: "a call of no operation",
        head: COMPOSE,
        params: 2,
        lines: &[Line::Call(OpId(99), &[0, 1])],
        answer: 2,
        fault: Some(0),
    },
    Case {
        shows: "an answer that is no variable",
        head: NEGATE,
        params: 1,
        lines: &[Line::Call(NEGATE, &[0])],
        answer: 9,
        fault: Some(1),
    },
    Case {
        shows: "a morphism for a truth",
        head: IS_MONO,
        params: 1,
        lines: &[Line::Call(KERNEL, &[0])],
        answer: 1,
        fault: Some(1),
    },
    Case {
        shows: "projections from two sums",
        head: PRODUCT,
        params: 2,
        lines: &[
            Line::Call(DIRECT_SUM, &[0, 1]),
            Line::Call(DIRECT_SUM, &[0, 1]),
            Line::Part(2, 3),
            Line::Part(3, 4),
            Line::Tuple(&[4, 5]),
        ],
        answer: 6,
        fault: Some(5),
    },
    Case {
        shows: "an object for a morphism",
        head: IDENTITY,
        params: 1,
        lines: &[],
        answer: 0,
        fault: Some(0),
    },
];

fn vars(alloc: Global, numbers: &[u8]) -> Result<Items<Var>, AllocFailed<Var>> {
    let mut list = Vec::new(alloc);
    for number in numbers {
        list.push(Var(*number))?;
    }
    Ok(Items::new(list))
}

fn body(alloc: Global, case: &Case) -> Result<Body, Fail> {
    let mut steps = Vec::new(alloc);
    for line in case.lines {
        steps.push(match *line {
            Line::Call(op, args) => Step::Call {
                op,
                args: vars(alloc, args)?,
            },
            Line::Src(x) => Step::Src(Var(x)),
            Line::Part(x, n) => Step::Part { of: Var(x), n },
            Line::MinusOne => Step::MinusOne,
            Line::Exists(x) => Step::Exists(Var(x)),
            Line::Both(x, y) => Step::Both(Var(x), Var(y)),
            Line::When(x, y) => Step::When(Var(x), Var(y)),
            Line::Tuple(args) => Step::Tuple(vars(alloc, args)?),
        })?;
    }
    Ok(Body {
        params: case.params,
        steps: Items::new(steps),
        answer: Var(case.answer),
    })
}

#[test]
fn faults_of_bodies(rt: HostRuntime) -> Result<(), Fail> {
    for case in &CASES {
        let body = body(rt.alloc(), case)?;
        assert!(rt; body.steps.len() < 100);
        let found = check_term(case.head, &body).err();
        assert_eq!(rt; found, case.fault.map(|n| BadStep { n }), "{}", case.shows);
    }
    Ok(())
}

#[test]
fn calls_are_counted(rt: HostRuntime) -> Result<(), Fail> {
    let case = CASES[17];
    let body = body(rt.alloc(), &case)?;
    assert!(rt; body.steps.len() < 100);
    assert_eq!(rt; multiplicity(&body, KERNEL), 2);
    assert_eq!(rt; multiplicity(&body, IS_CONGRUENT), 1);
    assert_eq!(rt; multiplicity(&body, COMPOSE), 0);
    Ok(())
}

#[test]
fn faults_have_a_text(rt: HostRuntime) -> Result<(), Fail> {
    let text = BadStep { n: 3 }.to_string(rt.alloc())?;
    assert_eq!(rt; text.as_str(), "the body is not typed at step 3");
    Ok(())
}
