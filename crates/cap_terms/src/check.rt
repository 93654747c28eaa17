// Whether a body is typed.
ghost use Rattle.std.specs.Prelude.{◌≡◌, ◌↔◌, ◌<◌, ◌≤◌, ◌^◌, ℕ, List, length, take, is_some, IsOk, IfErr};
ghost use Rattle.cap_ops.specs.declared.ends.Shape.{Shape};
ghost use Rattle.cap_ops.specs.Ends.{IsOperation, profile_of, renamed, renamed_ends};
ghost use Rattle.cap_terms.specs.declared.symbol.Symbol.{Symbol};
ghost use Rattle.cap_terms.specs.declared.symbol.Symbol.TheVariants.{Given};
ghost use Rattle.cap_terms.specs.Checker.{answer_bindings, body_fault, bound_args, first_variables, given_shapes, no_bindings, steps_fault};
ghost use Rattle.cap_terms.specs.Nameable.{nameable};
ghost use Rattle.cap_terms.specs.Typing.{FirstFault, HasParameters, Typed};

use crate::binding::{Bindings, bind_args, bind_shape};
use crate::body::{Body, Var};
use crate::known::Known;
use crate::shapes::step_shape;
use crate::symbol::Symbol;
use cap_names::OpId;
use cap_ops::{Ends, Shape, arity, operation_ends};
use thiserror::Error;

/// A body is not typed. The number is 0 where it has not one parameter for each argument of its head, else that of the
/// first step that is refused, counted from 0, and the number of steps where the answer alone is wrong.
#[derive(Debug, Clone, Copy, PartialEq, Eq, Error)]
#[error("the body is not typed at step {n}")]
pub struct BadStep {
    pub n: u32,
}

fn given_ends(ends: Ends<u8>) -> Ends<Symbol>
    ensures { result ≡ renamed_ends Given ends }
{
    Ends {
        src: Symbol::Given(ends.src),
        tgt: Symbol::Given(ends.tgt),
    }
}

fn given_shape(shape: Shape<u8>) -> Shape<Symbol>
    ensures { result ≡ renamed Given shape }
{
    match shape {
        Shape::Object(x) => Shape::Object(Symbol::Given(x)),
        Shape::Morphism(e) => Shape::Morphism(given_ends(e)),
        Shape::Two(d, e) => Shape::Two(given_ends(d), given_ends(e)),
        Shape::Four(c, d, e, f) => {
            Shape::Four(given_ends(c), given_ends(d), given_ends(e), given_ends(f))
        }
        Shape::Truth => Shape::Truth,
        Shape::Scalar => Shape::Scalar,
    }
}

fn known_parameters(head: OpId) -> Known
    requires { IsOperation head.0 }
    ensures { result ≡ given_shapes head.0 }
{
    let mut known = Known::new();
    for place in operation_ends(head).args {
        match place {
            None => {}
            Some(shape) => known.push(given_shape(shape)),
        }
    }
    known
}

// What the letters of the head's arguments stand for.
fn head_bindings(known: &Known, head: OpId, params: u8) -> Option<Bindings>
    requires { HasParameters head.0 params }
    ensures { (full : List (Shape Symbol)) → known.now ≡ take nameable full → result ≡ bound_args full no_bindings (profile_of head.0).arguments (take params first_variables) }
{
    let vars = [Var(0), Var(1), Var(2), Var(3)];
    let count = params as usize;
    bind_args(known, operation_ends(head).args, &vars[..count])
}

fn answer_fits(known: &Known, head: OpId, params: u8, answer: Var) -> bool
    requires { HasParameters head.0 params }
    ensures { (full : List (Shape Symbol)) → known.now ≡ take nameable full → result ≡ is_some (answer_bindings full head.0 params answer) }
{
    match (known.shape(answer), head_bindings(known, head, params)) {
        (Some(shape), Some(bindings)) => {
            bind_shape(bindings, operation_ends(head).answer, shape).is_some()
        }
        _ => false,
    }
}

fn first_bad_step(head: OpId, body: &Body) -> Option<u32>
    requires few { length body.now.steps < 2 ^ 32 }
    requires parameters { HasParameters head.0 body.now.params }
    ensures { result ≡ steps_fault (given_shapes head.0) head.0 body.now.params body.now.answer 0 body.now.steps }
{
    let mut known = known_parameters(head);
    for (k, step) in body.steps.as_slice().iter().enumerate() {
        match step_shape(&known, k as u32, step) {
            None => return Some(k as u32),
            Some(shape) => known.push(shape),
        }
    }
    if answer_fits(&known, head, body.params, body.answer) {
        None
    } else {
        Some(body.steps.len() as u32)
    }
}

fn first_fault(head: OpId, body: &Body) -> Option<u32>
    requires { length body.now.steps < 2 ^ 32 }
    ensures { result ≡ body_fault head.0 body.now }
{
    if head.0 < 1 || head.0 > 44 || usize::from(body.params) != arity(head) {
        return Some(0);
    }
    first_bad_step(head, body)
}

/// Whether the body is typed as one that computes the head.
pub fn check_term(head: OpId, body: &Body) -> Result<(), BadStep>
    requires { length body.now.steps < 2 ^ 32 }
    ensures typed { IsOk result ↔ Typed head.0 body.now }
    ensures fault { IfErr result (λ e. FirstFault head.0 body.now e.n) }
{
    match first_fault(head, body) {
        None => Ok(()),
        Some(n) => Err(BadStep { n }),
    }
}
