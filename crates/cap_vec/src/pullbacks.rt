// Pullbacks and pushouts by null rows.
ghost use Rattle.std.specs.Prelude.{◌≡◌, ◌+◌, true, IfErr, IfOk};
ghost use Rattle.cap_field.specs.Residue.{is_tabled};
ghost use Rattle.cap_matrix.specs.Grid.{IsMatrix, transposed_of};
ghost use Rattle.cap_laws.specs.Answers.{Answers, Size, Fits};
ghost use Rattle.cap_laws.specs.declared.faults.CatFault.TheVariants.{NoMemory};
ghost use Rattle.cap_laws.specs.Universal.{IsPullback, IsPushout};
ghost use Rattle.cap_vec_laws.specs.Vec.{vec_data, first_columns, last_columns, stacked_difference};
ghost use Rattle.cap_vec.specs.Sizes.{IsSizeOf, IsSizeInKernel, IsSizeInPair, IsSizeInPullback, IsSizeInPushout, pullback_of, pushout_of};

use crate::VecCat;
use crate::abelian::kernel;
use crate::morphism::{VecMor, answered, kept, transposed};
use cap_field::Field;
use cap_laws::CatFault;
use std::alloc::Global;

/// f above −g.
fn difference(alloc: Global, field: Field, f: &VecMor, g: &VecMor) -> Result<VecMor, CatFault>
    requires f { IsMatrix field f.now }
    requires g { IsMatrix field g.now }
    requires targets { f.now.column_count ≡ g.now.column_count }
    ensures { Answers (IsSizeOf (stacked_difference f.now g.now)) (λ x. x ≡ stacked_difference f.now g.now) result }
{
    let minus_one = (field.prime() - 1) as u16;
    match g.matrix().scale(alloc, minus_one) {
        Ok(negative) => answered(f.matrix().stack(alloc, &negative)),
        Err(_) => Err(CatFault::NoMemory),
    }
}

/// The first `a` columns and the `b` columns after them.
fn cut(alloc: Global, rows: &VecMor, a: u32, b: u32) -> Result<(VecMor, VecMor), CatFault>
    requires { rows.now.column_count ≡ a + b }
    ensures answer { Answers (IsSizeInPair (first_columns a rows.now, last_columns a b rows.now)) (λ x. x ≡ (first_columns a rows.now, last_columns a b rows.now)) result }
    ensures fault { IfErr result (λ e. e ≡ NoMemory) }
{
    let m = rows.matrix();
    let first = kept(m.block(alloc, 0, 0, m.rows(), a))?;
    let last = kept(m.block(alloc, 0, a, m.rows(), b))?;
    Ok((first, last))
}

/// The null rows of f above −g, cut after the columns of f's source.
fn cut_null_rows(
    alloc: Global,
    field: Field,
    f: &VecMor,
    g: &VecMor,
) -> Result<(VecMor, VecMor), CatFault>
    requires f { IsMatrix field f.now }
    requires g { IsMatrix field g.now }
    requires targets { f.now.column_count ≡ g.now.column_count }
    ensures { (t : is_tabled field ≡ true) → Answers (IsSizeInKernel field t (stacked_difference f.now g.now))
        (λ x. (x ≡ pullback_of field t f.now g.now) × ((s : Size) → IsSizeInPair (pullback_of field t f.now g.now) s → Fits s)) result }
{
    let _ = field.prime();
    let stacked = difference(alloc, field, f, g)?;
    let rows = kernel(alloc, field, &stacked)?;
    cut(alloc, &rows, *f.source(), *g.source())
}

impl VecCat {
    /// A pullback (p, q) of f and g, which have one target: p·f = q·g.
    pub fn pullback(
        &self,
        alloc: Global,
        f: &VecMor,
        g: &VecMor,
    ) -> Result<(VecMor, VecMor), CatFault>
        requires left { IsMatrix self.now.field f.now }
        requires right { IsMatrix self.now.field g.now }
        requires targets { f.now.column_count ≡ g.now.column_count }
        ensures answer { Answers (IsSizeInPullback self.now.field self.now.tabled f.now g.now) (λ x. x ≡ pullback_of self.now.field self.now.tabled f.now g.now) result }
        ensures pullback { IfOk result (λ x. IsPullback (vec_data self.now.field) x.0.row_count f.now.row_count g.now.row_count f.now.column_count f.now g.now x.0 x.1) }
    {
        cut_null_rows(alloc, self.field, f, g)
    }

    /// A pushout (i, j) of f and g, which have one source: f·i = g·j.
    pub fn pushout(
        &self,
        alloc: Global,
        f: &VecMor,
        g: &VecMor,
    ) -> Result<(VecMor, VecMor), CatFault>
        requires left { IsMatrix self.now.field f.now }
        requires right { IsMatrix self.now.field g.now }
        requires sources { f.now.row_count ≡ g.now.row_count }
        ensures answer { Answers (IsSizeInPushout self.now.field self.now.tabled f.now g.now) (λ x. x ≡ pushout_of self.now.field self.now.tabled f.now g.now) result }
        ensures pushout { IfOk result (λ x. IsPushout (vec_data self.now.field) f.now.row_count f.now.column_count g.now.column_count x.0.column_count f.now g.now x.0 x.1) }
    {
        let turned_f = transposed(alloc, f)?;
        let turned_g = transposed(alloc, g)?;
        let (first, last) = cut_null_rows(alloc, self.field, &turned_f, &turned_g)?;
        let first = transposed(alloc, &first)?;
        let last = transposed(alloc, &last)?;
        Ok((first, last))
    }
}
