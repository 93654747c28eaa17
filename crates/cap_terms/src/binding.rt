// Which objects the letters of an operation stand for in a call.
ghost use Rattle.std.specs.Prelude.{◌≡◌, ◌≤◌, ℕ, List, length, take};
ghost use Rattle.cap_ops.specs.declared.ends.Shape.{Shape};
ghost use Rattle.cap_ops.specs.Ends.{padded, renamed, renamed_ends};
ghost use Rattle.cap_terms.specs.declared.symbol.Symbol.{Symbol};
ghost use Rattle.cap_terms.specs.declared.symbol.Symbol.TheVariants.{Made};
ghost use Rattle.cap_terms.specs.Checker.{bound, bound_args, bound_ends, bound_shape, no_bindings, object_in};
ghost use Rattle.cap_terms.specs.Nameable.{nameable};

use crate::body::Var;
use crate::known::Known;
use crate::symbol::Symbol;
use cap_ops::{Ends, Shape};

/// The objects of the letters 0 to 4, as far as they are known.
pub type Bindings = [Option<Symbol>; 5];

/// The bindings where the letter stands for the object too; None where it stands for another.
fn bind(mut bindings: Bindings, letter: u8, x: Symbol) -> Option<Bindings>
    ensures { result ≡ bound bindings letter x }
{
    let place = usize::from(letter);
    if place >= 5 {
        return None;
    }
    let object = bindings[place];
    match object {
        None => {
            bindings[place] = Some(x);
            Some(bindings)
        }
        Some(y) => { if y == x { Some(bindings) } else { None } }
    }
}

fn bind_ends(bindings: Bindings, wanted: Ends<u8>, ends: Ends<Symbol>) -> Option<Bindings>
    ensures { result ≡ bound_ends bindings wanted ends }
{
    bind(bind(bindings, wanted.src, ends.src)?, wanted.tgt, ends.tgt)
}

/// The bindings with which a value of this shape stands where the operation has the other one.
pub fn bind_shape(bindings: Bindings, wanted: Shape<u8>, shape: Shape<Symbol>) -> Option<Bindings>
    ensures { result ≡ bound_shape bindings wanted shape }
{
    match (wanted, shape) {
        (Shape::Object(x), Shape::Object(a)) => bind(bindings, x, a),
        (Shape::Morphism(e), Shape::Morphism(f)) => bind_ends(bindings, e, f),
        (Shape::Two(d, e), Shape::Two(f, g)) => bind_ends(bind_ends(bindings, d, f)?, e, g),
        (Shape::Four(a, b, c, d), Shape::Four(e, f, g, h)) => {
            let first = bind_ends(bindings, a, e)?;
            let second = bind_ends(first, b, f)?;
            let third = bind_ends(second, c, g)?;
            bind_ends(third, d, h)
        }
        (Shape::Truth, Shape::Truth) | (Shape::Scalar, Shape::Scalar) => Some(bindings),
        _ => None,
    }
}

/// The objects of the letters of an operation with these arguments, where the variables stand for the arguments.
pub fn bind_args(known: &Known, wanted: [Option<Shape<u8>>; 4], args: &[Var]) -> Option<Bindings>
    requires { length args.now ≤ 4 }
    ensures { (full : List (Shape Symbol)) (ss : List (Shape ℕ)) → known.now ≡ take nameable full → wanted ≡ padded ss → length ss ≡ length args.now → result ≡ bound_args full no_bindings ss args.now }
{
    let mut bindings = [None; 5];
    for (i, x) in args.iter().enumerate() {
        let shape = known.shape(*x)?;
        let place = wanted[i]?;
        bindings = bind_shape(bindings, place, shape)?;
    }
    Some(bindings)
}

fn object(bindings: Bindings, step: u32, letter: u8) -> Symbol
    ensures { result ≡ object_in (Made step) bindings letter }
{
    let place = usize::from(letter);
    if place < 5 {
        if let Some(x) = bindings[place] {
            return x;
        }
    }
    Symbol::Made { step, letter }
}

fn named_ends(bindings: Bindings, step: u32, ends: Ends<u8>) -> Ends<Symbol>
    ensures { result ≡ renamed_ends (object_in (Made step) bindings) ends }
{
    Ends {
        src: object(bindings, step, ends.src),
        tgt: object(bindings, step, ends.tgt),
    }
}

/// The shape with the objects that its letters stand for; those of letters that stand for nothing come with the step.
pub fn named(bindings: Bindings, step: u32, shape: Shape<u8>) -> Shape<Symbol>
    ensures { result ≡ renamed (object_in (Made step) bindings) shape }
{
    match shape {
        Shape::Object(x) => Shape::Object(object(bindings, step, x)),
        Shape::Morphism(e) => Shape::Morphism(named_ends(bindings, step, e)),
        Shape::Two(d, e) => Shape::Two(
            named_ends(bindings, step, d),
            named_ends(bindings, step, e),
        ),
        Shape::Four(c, d, e, f) => Shape::Four(
            named_ends(bindings, step, c),
            named_ends(bindings, step, d),
            named_ends(bindings, step, e),
            named_ends(bindings, step, f),
        ),
        Shape::Truth => Shape::Truth,
        Shape::Scalar => Shape::Scalar,
    }
}
