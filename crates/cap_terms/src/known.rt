// The shapes that are known of variables.
use crate::body::Var;
use crate::symbol::Symbol;
use cap_ops::Shape;
use std::marker::Model;

/// The shapes of the first variables of a body, at most as many as a `Var` can name.
#[derive(Drop)]
pub struct Known {
    shapes: [Shape<Symbol>; 256],
    len: usize,
}

impl Model for Known {
    ghost use Rattle.std.specs.Prelude.{List, length, take, ◌≡◌, ◌≤◌};
    ghost use Rattle.cap_ops.specs.declared.ends.Shape.{Shape};
    ghost use Rattle.cap_terms.specs.declared.symbol.Symbol.{Symbol};

    ghost Value = { List (Shape Symbol) };

    ghost view = { λ k. take k.len k.shapes };

    ghost invariant = { λ k. (k.len ≤ 256) × (length k.shapes ≡ 256) };
}

impl Known {
    ghost use Rattle.std.specs.Prelude.{◌≡◌, List, [], ◌∷◌, ◌++◌, take, slice_get};
    ghost use Rattle.cap_ops.specs.declared.ends.Shape.{Shape};
    ghost use Rattle.cap_terms.specs.declared.symbol.Symbol.{Symbol};
    ghost use Rattle.cap_terms.specs.Nameable.{nameable};

    /// Nothing is known.
    pub fn new() -> Known
        ensures { result ≡ [] }
    {
        Known {
            shapes: [Shape::Truth; 256],
            len: 0,
        }
    }

    /// The shape of one variable more; where no `Var` can name it, nothing changes.
    pub fn push(&mut self, shape: Shape<Symbol>)
        ensures { self.new ≡ take nameable (self.old ++ shape ∷ []) }
    {
        if self.len < 256 {
            self.shapes[self.len] = shape;
            self.len += 1;
        }
    }

    /// The shape of a variable, where all that are known are these.
    pub fn shape(&self, x: Var) -> Option<Shape<Symbol>>
        ensures { (full : List (Shape Symbol)) → self.now ≡ take nameable full → result ≡ slice_get full x.0 }
    {
        let place = usize::from(x.0);
        if place < self.len {
            Some(self.shapes[place])
        } else {
            None
        }
    }
}
