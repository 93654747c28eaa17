// Systems of linear equations as one row equation.
ghost use Rattle.std.specs.Prelude.{◌≡◌};
ghost use Rattle.cap_laws.specs.Answers.{Answers, Size};
ghost use Rattle.cap_laws.specs.Systems.{IsSystem};
ghost use Rattle.cap_solve.specs.Answered.{IsAnswered, morphisms_in};
ghost use Rattle.cap_solve.specs.Sizes.{IsSizeInSystem};

use crate::equations::row_equation;
use crate::solutions::morphisms;
use cap_homlaw::HomFp;
use cap_laws::{CatFault, System};
use cap_names::Items;
use cap_reduce::Solved;
use std::alloc::Global;

/// What a system has: morphisms for its unknowns, or a column that shows that there are none.
#[derive(Debug, Drop)]
pub enum Answer<M> {
    Solution(Items<M>),
    Obstruction(Items<u16>),
}

impl<M> Answer<M> {
    /// The morphisms of a solution, or none.
    pub fn solution(self) -> Option<Items<M>>
        ensures { result ≡ morphisms_in self }
    {
        match self {
            Answer::Solution(xs) => Some(xs),
            Answer::Obstruction(_) => None,
        }
    }
}

/// The canonical solution of a system, or an obstruction of its row equation exactly where there is none.
pub fn solve<C: HomFp>(
    alloc: Global,
    c: &C,
    s: &System<C::Obj, C::Mor>,
) -> Result<Answer<C::Mor>, CatFault>
    requires { IsSystem (C.category c.now) s.now }
    ensures { Answers (IsSizeInSystem (C.hom_meets c.now) (C.category c.now) (C.hom c.now) s.now) (IsAnswered (C.category c.now) (C.hom c.now) s.now) result }
{
    let (matrix, values) = row_equation(alloc, c, s)?;
    let row = values.as_slice();
    let solved = cap_reduce::solve(alloc, &matrix, row)?;
    match solved {
        Solved::Row(x) => {
            let unknowns = s.unknowns.as_slice();
            let solution = x.as_slice();
            let xs = morphisms(alloc, c, unknowns, solution)?;
            Ok(Answer::Solution(xs))
        }
        Solved::Obstruction(y) => Ok(Answer::Obstruction(y)),
    }
}
