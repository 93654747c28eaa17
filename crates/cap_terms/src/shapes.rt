// The shape that the answer of a step must have.
ghost use Rattle.std.specs.Prelude.{◌≡◌, ◌≤◌, ℕ, List, take, option_and_then, slice_get};
ghost use Rattle.cap_ops.specs.declared.ends.Shape.{Shape};
ghost use Rattle.cap_terms.specs.declared.symbol.Symbol.{Symbol};
ghost use Rattle.cap_terms.specs.Checker.{both_shape as both_of, call_shape as call_of, ends_at, ends_of, exists_shape as exists_of, morphisms_only, part_shape as part_of, source_shape as source_of, step_shape as step_of, target_shape as target_of, tuple_at, when_shape as when_of};
ghost use Rattle.cap_terms.specs.Nameable.{nameable};

use crate::binding::{bind_args, named};
use crate::body::{Step, Var};
use crate::known::Known;
use crate::symbol::Symbol;
use cap_names::OpId;
use cap_ops::{Ends, Shape, arity, operation_ends};

fn source_shape(shape: Shape<Symbol>) -> Option<Shape<Symbol>>
    ensures { result ≡ source_of shape }
{
    match shape {
        Shape::Morphism(ends) => Some(Shape::Object(ends.src)),
        _ => None,
    }
}

fn target_shape(shape: Shape<Symbol>) -> Option<Shape<Symbol>>
    ensures { result ≡ target_of shape }
{
    match shape {
        Shape::Morphism(ends) => Some(Shape::Object(ends.tgt)),
        _ => None,
    }
}

fn part_shape(n: u8, shape: Shape<Symbol>) -> Option<Shape<Symbol>>
    ensures { result ≡ part_of n shape }
{
    let ends = match (shape, n) {
        (Shape::Two(first, _), 1) => first,
        (Shape::Two(_, second), 2) => second,
        (Shape::Four(first, _, _, _), 1) => first,
        (Shape::Four(_, second, _, _), 2) => second,
        (Shape::Four(_, _, third, _), 3) => third,
        (Shape::Four(_, _, _, fourth), 4) => fourth,
        _ => return None,
    };
    Some(Shape::Morphism(ends))
}

fn exists_shape(shape: Shape<Symbol>) -> Option<Shape<Symbol>>
    ensures { result ≡ exists_of shape }
{
    match shape {
        Shape::Object(_) | Shape::Scalar => None,
        _ => Some(Shape::Truth),
    }
}

fn both_shape(first: Shape<Symbol>, second: Shape<Symbol>) -> Option<Shape<Symbol>>
    ensures { result ≡ both_of first second }
{
    match (first, second) {
        (Shape::Truth, Shape::Truth) => Some(Shape::Truth),
        _ => None,
    }
}

fn when_shape(truth: Shape<Symbol>, shape: Shape<Symbol>) -> Option<Shape<Symbol>>
    ensures { result ≡ when_of truth shape }
{
    match (truth, shape) {
        (Shape::Truth, Shape::Morphism(_) | Shape::Two(_, _) | Shape::Four(_, _, _, _)) => {
            Some(shape)
        }
        _ => None,
    }
}

fn ends_of_shape(shape: Shape<Symbol>) -> Option<Ends<Symbol>>
    ensures { result ≡ ends_of shape }
{
    match shape {
        Shape::Morphism(ends) => Some(ends),
        _ => None,
    }
}

fn ends_of_variable(known: &Known, x: Var) -> Option<Ends<Symbol>>
    ensures { (full : List (Shape Symbol)) → known.now ≡ take nameable full → result ≡ ends_at full x }
{
    ends_of_shape(known.shape(x)?)
}

fn tuple_shape(known: &Known, args: &[Var]) -> Option<Shape<Symbol>>
    ensures { (full : List (Shape Symbol)) → known.now ≡ take nameable full → result ≡ tuple_at full args.now }
{
    match args {
        [x, y] => {
            let first = ends_of_variable(known, *x)?;
            let second = ends_of_variable(known, *y)?;
            Some(Shape::Two(first, second))
        }
        [x, y, z, w] => {
            let first = ends_of_variable(known, *x)?;
            let second = ends_of_variable(known, *y)?;
            let third = ends_of_variable(known, *z)?;
            let fourth = ends_of_variable(known, *w)?;
            Some(Shape::Four(first, second, third, fourth))
        }
        _ => None,
    }
}

fn call_shape(known: &Known, step: u32, op: OpId, args: &[Var]) -> Option<Shape<Symbol>>
    ensures { (full : List (Shape Symbol)) → known.now ≡ take nameable full → result ≡ call_of full step op.0 args.now }
{
    if op.0 < 1 || op.0 > 44 || args.len() != arity(op) {
        return None;
    }
    let ends = operation_ends(op);
    let bindings = bind_args(known, ends.args, args)?;
    Some(named(bindings, step, ends.answer))
}

/// The shape of the answer of step number `k`; None where the step is not typed.
pub fn step_shape(known: &Known, k: u32, step: &Step) -> Option<Shape<Symbol>>
    ensures { (full : List (Shape Symbol)) → known.now ≡ take nameable full → result ≡ step_of full k step.now }
{
    match step {
        Step::Call { op, args } => call_shape(known, k, *op, args.as_slice()),
        Step::Src(x) => source_shape(known.shape(*x)?),
        Step::Tgt(x) => target_shape(known.shape(*x)?),
        Step::Part { of, n } => part_shape(*n, known.shape(*of)?),
        Step::MinusOne => Some(Shape::Scalar),
        Step::Exists(x) => exists_shape(known.shape(*x)?),
        Step::Both(x, y) => both_shape(known.shape(*x)?, known.shape(*y)?),
        Step::When(x, y) => when_shape(known.shape(*x)?, known.shape(*y)?),
        Step::Tuple(args) => tuple_shape(known, args.as_slice()),
    }
}
