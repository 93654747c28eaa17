// Steps as constants.
ghost use Rattle.std.specs.Prelude.{◌≡◌, IfOk, map};
ghost use Rattle.cap_rules.specs.Codes.{body_of, step_of, variables};

use cap_names::{Items, NoMemory, OpId};
use cap_terms::{Body, Step, Var};
use std::alloc::Global;

/// A step whose variables are given by their numbers.
#[derive(Clone, Copy)]
pub enum Code {
    Call0(OpId),
    Call1(OpId, u8),
    Call2(OpId, u8, u8),
    Call4(OpId, u8, u8, u8, u8),
    Src(u8),
    Tgt(u8),
    Part(u8, u8),
    MinusOne,
    Exists(u8),
    Both(u8, u8),
    When(u8, u8),
    Tuple2(u8, u8),
    Tuple4(u8, u8, u8, u8),
}

/// A body with such steps.
#[derive(Clone, Copy)]
pub struct BodyCode {
    pub params: u8,
    pub steps: &'static [Code],
    pub answer: u8,
}

fn vars(alloc: Global, numbers: &[u8]) -> Result<Items<Var>, NoMemory>
    ensures { IfOk result (λ xs. xs ≡ variables numbers.now) }
{
    let mut list = Vec::new(alloc);
    for number in numbers {
        list.push(Var(*number))?;
    }
    Ok(Items::new(list))
}

fn step(alloc: Global, code: Code) -> Result<Step, NoMemory>
    ensures { IfOk result (λ s. s ≡ step_of code) }
{
    match code {
        Code::Call0(op) => Ok(Step::Call {
            op,
            args: vars(alloc, &[])?,
        }),
        Code::Call1(op, x) => Ok(Step::Call {
            op,
            args: vars(alloc, &[x])?,
        }),
        Code::Call2(op, x, y) => Ok(Step::Call {
            op,
            args: vars(alloc, &[x, y])?,
        }),
        Code::Call4(op, x, y, z, w) => Ok(Step::Call {
            op,
            args: vars(alloc, &[x, y, z, w])?,
        }),
        Code::Src(x) => Ok(Step::Src(Var(x))),
        Code::Tgt(x) => Ok(Step::Tgt(Var(x))),
        Code::Part(x, n) => Ok(Step::Part { of: Var(x), n }),
        Code::MinusOne => Ok(Step::MinusOne),
        Code::Exists(x) => Ok(Step::Exists(Var(x))),
        Code::Both(x, y) => Ok(Step::Both(Var(x), Var(y))),
        Code::When(x, y) => Ok(Step::When(Var(x), Var(y))),
        Code::Tuple2(x, y) => Ok(Step::Tuple(vars(alloc, &[x, y])?)),
        Code::Tuple4(x, y, z, w) => Ok(Step::Tuple(vars(alloc, &[x, y, z, w])?)),
    }
}

/// The body that a constant stands for.
pub fn decode(alloc: Global, code: BodyCode) -> Result<Body, NoMemory>
    ensures { IfOk result (λ b. b ≡ body_of code) }
{
    let mut steps = Vec::new(alloc);
    for next in code.steps {
        steps.push(step(alloc, *next)?)?;
    }
    Ok(Body {
        params: code.params,
        steps: Items::new(steps),
        answer: Var(code.answer),
    })
}
