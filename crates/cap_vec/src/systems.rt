// Systems of linear equations, by the cells of matrices as coefficients.
use crate::VecCat;
use crate::morphism::VecMor;
use cap_laws::{CatFault, Lifts, System};
use cap_names::Items;
use cap_solve::solve;
use std::alloc::Global;

impl Lifts for VecCat {
    ghost use Rattle.cap_vec_laws.specs.Vec.{vec_data};
    ghost use Rattle.cap_vec_laws.proofs.Linear.{vec_linear};
    ghost use Rattle.cap_vec_hom_laws.specs.Homs.{vec_hom};
    ghost use Rattle.cap_vec_hom_laws.proofs.HomLaws.{vec_has_hom};
    ghost use Rattle.cap_solve_laws.proofs.Solutions.{solution_of, solution-answers};
    ghost use Rattle.cap_solve.specs.Sizes.{IsSizeInSystem};
    ghost use Rattle.cap_vec.specs.Homs.{vec_hom_meets};

    ghost solution_of = { λ c s. solution_of (vec_data c.field) (vec_hom c.field) s };

    ghost system_meets = { λ c s z. IsSizeInSystem vec_hom_meets (vec_data c.field) (vec_hom c.field) s z };

    fn solve_system(
        &self,
        alloc: Global,
        s: &System<u32, VecMor>,
    ) -> Result<Option<Items<VecMor>>, CatFault> {
        let answer = solve(alloc, self, s)?;
        Ok(answer.solution())
    }

    ghost solves = { λ c s I. solution-answers (vec_linear c.field c.tabled) (vec_has_hom c.field c.tabled) s I };
}
