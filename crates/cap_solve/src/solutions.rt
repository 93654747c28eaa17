// The morphisms for the unknowns of a system whose coefficients are a row.
ghost use Rattle.std.specs.Prelude.{◌≡◌, ◌≤◌};
ghost use Rattle.cap_laws.specs.Answers.{Answers};
ghost use Rattle.cap_homlaw.specs.Rows.{AreResidues};
ghost use Rattle.cap_solve_laws.specs.Systems.{unknowns_width, morphisms_of};
ghost use Rattle.cap_solve.specs.Parts.{AreEnds};
ghost use Rattle.cap_solve.specs.Sizes.{IsSizeInMorphisms};

use cap_homlaw::HomFp;
use cap_laws::CatFault;
use cap_names::Items;
use std::alloc::Global;

/// The morphisms for the unknowns whose coefficients, one unknown after another, are a row.
pub(crate) fn morphisms<C: HomFp>(
    alloc: Global,
    c: &C,
    unknowns: &[(C::Obj, C::Obj)],
    row: &[u16],
) -> Result<Items<C::Mor>, CatFault>
    requires unknowns { AreEnds (C.category c.now) unknowns.now }
    requires few { unknowns_width (C.hom c.now) unknowns.now ≤ 2048 }
    requires row { AreResidues (C.category c.now).prime (unknowns_width (C.hom c.now) unknowns.now) row.now }
    ensures { Answers (IsSizeInMorphisms (C.hom_meets c.now) (C.hom c.now) unknowns.now row.now) (λ xs. xs ≡ morphisms_of (C.hom c.now) unknowns.now row.now) result }
{
    let mut xs = Vec::new(alloc);
    let mut start: usize = 0;
    for (from, to) in unknowns {
        let end = start + c.dim(from, to) as usize;
        let x = c.back(alloc, from, to, &row[start..end])?;
        xs.push(x)?;
        start = end;
    }
    Ok(Items::new(xs))
}
