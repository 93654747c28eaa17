// Weak kernels by generators.
ghost use Rattle.std.specs.Prelude.{◌≡◌, ◌⊎◌, ◌^◌, ◌<◌, map};
ghost use Rattle.cap_matrix.specs.Grid.{IsMatrixOf};
ghost use Rattle.cap_homlaw.specs.Hom.{hom_matrix};
ghost use Rattle.cap_solve_laws.proofs.Solver.{solution_row, null_rows_of};
ghost use Rattle.cap_solve.specs.Factors.{has_row, is_row};
ghost use Rattle.cap_laws.specs.Answers.{Answers, numbers};
ghost use Rattle.cap_laws.specs.Linear.{Arrow};
ghost use Rattle.cap_laws.specs.declared.faults.CatFault.TheVariants.{TooLarge as TooLargeFault};
ghost use Rattle.cap_solve_laws.proofs.WeakKernels.{kept_by, kept_of, null_morphisms, weak_kernel_of};
ghost use Rattle.cap_solve_laws.specs.WeakKernels.{above};
ghost use Rattle.cap_solve.specs.Sizes.{IsSizeInJoin, IsSizeInKeep, IsSizeInRows, IsSizeAtGenerator, IsSizeInWeakKernel};

use cap_homlaw::HomFp;
use cap_laws::{Additive, CatFault, Sum};
use cap_matrix::{Matrix, MatrixFault, TooLarge};
use cap_reduce::{Solved as RowAnswer, null_rows, solve};
use std::alloc::Global;

/// k above g, out of the direct sum of their sources.
fn joined<C: HomFp + Additive>(
    alloc: Global,
    c: &C,
    k: &C::Mor,
    g: &C::Mor,
) -> Result<C::Mor, CatFault>
    requires first { (C.HomFp.category c.now).is_morphism k.now }
    requires second { (C.HomFp.category c.now).is_morphism g.now }
    requires targets { (C.HomFp.category c.now).target k.now ≡ (C.HomFp.category c.now).target g.now }
    ensures { Answers (IsSizeInJoin (record { zero_object = C.zero_object_meets c.now; identity = C.HomFp.identity_meets c.now; zero = C.HomFp.zero_meets c.now; add = C.HomFp.add_meets c.now; compose = C.HomFp.compose_meets c.now; direct_sum = C.direct_sum_meets c.now })
        (C.HomFp.category c.now) (record { zero_object = C.zero_object_of c.now; sum = C.sum_of c.now }) k.now g.now)
        (λ x. x ≡ above (C.HomFp.category c.now) (record { zero_object = C.zero_object_of c.now; sum = C.sum_of c.now }) k.now g.now) result }
{
    let Sum {
        i1: _,
        i2: _,
        p1,
        p2,
    } = c.direct_sum(alloc, c.source(k), c.source(g))?;
    let upper = c.compose(alloc, &p1, k)?;
    let lower = c.compose(alloc, &p2, g)?;
    c.add(alloc, &upper, &lower)
}

/// Whether a row equation has a solution.
fn is_solved(answer: RowAnswer) -> bool
    ensures { result ≡ is_row answer }
{
    match answer {
        RowAnswer::Row(_) => true,
        RowAnswer::Obstruction(_) => false,
    }
}

/// Whether g factors through k, where `unit` is the identity of g's source.
fn factors<C: HomFp>(
    alloc: Global,
    c: &C,
    unit: &C::Mor,
    k: &C::Mor,
    g: &C::Mor,
) -> Result<bool, CatFault>
    requires unit { (C.category c.now).is_morphism unit.now }
    requires first { (C.category c.now).is_morphism k.now }
    requires second { (C.category c.now).is_morphism g.now }
    requires sources { (C.category c.now).source unit.now ≡ (C.category c.now).source g.now }
    requires targets { (C.category c.now).target k.now ≡ (C.category c.now).target g.now }
    ensures { Answers (λ z. (C.hom_meets c.now).h unit.now k.now z ⊎ (C.hom_meets c.now).nu g.now z)
        (λ b. b ≡ has_row (solution_row (C.category c.now).prime (hom_matrix (C.category c.now) (C.hom c.now) unit.now k.now) ((C.hom c.now).nu g.now))) result }
{
    let matrix = c.h(alloc, unit, k)?;
    let row = c.nu(alloc, g)?;
    let answer = solve(alloc, &matrix, row.as_slice())?;
    Ok(is_solved(answer))
}

/// k where g factors through it, and else k above g; `unit` is the identity of g's source.
fn keep<C: HomFp + Additive>(
    alloc: Global,
    c: &C,
    unit: &C::Mor,
    k: C::Mor,
    g: C::Mor,
) -> Result<C::Mor, CatFault>
    requires unit { (C.HomFp.category c.now).is_morphism unit.now }
    requires first { (C.HomFp.category c.now).is_morphism k }
    requires second { (C.HomFp.category c.now).is_morphism g }
    requires sources { (C.HomFp.category c.now).source unit.now ≡ (C.HomFp.category c.now).source g }
    requires targets { (C.HomFp.category c.now).target k ≡ (C.HomFp.category c.now).target g }
    ensures { Answers (λ z. ((C.hom_meets c.now).h unit.now k z ⊎ (C.hom_meets c.now).nu g z) ⊎ IsSizeInKeep (record { zero_object = C.zero_object_meets c.now; identity = C.HomFp.identity_meets c.now; zero = C.HomFp.zero_meets c.now; add = C.HomFp.add_meets c.now; compose = C.HomFp.compose_meets c.now; direct_sum = C.direct_sum_meets c.now }) (C.HomFp.category c.now) (record { zero_object = C.zero_object_of c.now; sum = C.sum_of c.now }) k g (solution_row (C.HomFp.category c.now).prime (hom_matrix (C.HomFp.category c.now) (C.hom c.now) unit.now k) ((C.hom c.now).nu g)) z)
        (λ x. x ≡ kept_by (C.HomFp.category c.now) (record { zero_object = C.zero_object_of c.now; sum = C.sum_of c.now }) k g (solution_row (C.HomFp.category c.now).prime (hom_matrix (C.HomFp.category c.now) (C.hom c.now) unit.now k) ((C.hom c.now).nu g))) result }
{
    if factors(alloc, c, unit, &k, &g)? {
        return Ok(k);
    }
    joined(alloc, c, &k, &g)
}

/// The fault of a matrix past the limits.
fn too_large(size: TooLarge) -> CatFault
    ensures value { result ≡ TooLargeFault size.rows size.cols }
    ensures rows { size.rows < 2 ^ 32 }
    ensures cols { size.cols < 2 ^ 32 }
{
    CatFault::TooLarge {
        rows: size.rows,
        cols: size.cols,
    }
}

/// The null rows of h(unit, f).
fn null_rows_at<C: HomFp>(
    alloc: Global,
    c: &C,
    unit: &C::Mor,
    f: &C::Mor,
) -> Result<Matrix, CatFault>
    requires unit { (C.category c.now).is_morphism unit.now }
    requires test { (C.category c.now).is_morphism f.now }
    ensures { let n = null_rows_of (C.category c.now).prime (hom_matrix (C.category c.now) (C.hom c.now) unit.now f.now) in
        Answers (λ z. (C.hom_meets c.now).h unit.now f.now z ⊎ (z ≡ numbers n.row_count n.column_count)) (λ m. m ≡ n) result }
{
    let matrix = c.h(alloc, unit, f)?;
    match null_rows(alloc, &matrix) {
        Ok(rows) => {
            let _ = rows.cells();
            Ok(rows)
        }
        Err(MatrixFault::TooLarge(size)) => Err(too_large(size)),
        Err(MatrixFault::NoMemory) => Err(CatFault::NoMemory),
    }
}

/// k with the morphisms of the rows into f's source put below it, in order, that don't factor through what stands there.
/// `unit` is the identity of their source.
fn keep_rows<C: HomFp + Additive>(
    alloc: Global,
    c: &C,
    f: &C::Mor,
    unit: &C::Mor,
    rows: &Matrix,
    k: C::Mor,
) -> Result<C::Mor, CatFault>
    requires test { (C.HomFp.category c.now).is_morphism f.now }
    requires unit { (C.HomFp.category c.now).is_morphism unit.now }
    requires identity { unit.now ≡ (C.HomFp.category c.now).identity ((C.HomFp.category c.now).source unit.now) }
    requires rows { IsMatrixOf (C.HomFp.category c.now).prime rows.now.row_count ((C.hom c.now).dim ((C.HomFp.category c.now).source unit.now) ((C.HomFp.category c.now).source f.now)) rows.now }
    requires kept { (C.HomFp.category c.now).is_morphism k }
    requires target { (C.HomFp.category c.now).target k ≡ (C.HomFp.category c.now).source f.now }
    ensures { let x = (C.HomFp.category c.now).source unit.now in
        let a = (C.HomFp.category c.now).source f.now in
        Answers (IsSizeInRows (record { zero_object = C.zero_object_meets c.now; identity = C.HomFp.identity_meets c.now; zero = C.HomFp.zero_meets c.now; add = C.HomFp.add_meets c.now; compose = C.HomFp.compose_meets c.now; direct_sum = C.direct_sum_meets c.now })
        (C.hom_meets c.now) (C.HomFp.category c.now) (C.hom c.now) (record { zero_object = C.zero_object_of c.now; sum = C.sum_of c.now }) x a k rows.now.entries)
        (λ m. (m ≡ kept_of (C.HomFp.category c.now) (C.hom c.now) (record { zero_object = C.zero_object_of c.now; sum = C.sum_of c.now }) k (map (λ r. (C.hom c.now).back x a r) rows.now.entries))
        × Arrow (C.HomFp.category c.now) ((C.HomFp.category c.now).source m) a m) result }
{
    let cells = rows.cells();
    let n = rows.cols() as usize;
    let mut kept = k;
    for i in 0..rows.rows() as usize {
        let start = i * n;
        let g = c.back(alloc, c.source(unit), c.source(f), &cells[start..start + n])?;
        kept = keep(alloc, c, unit, kept, g)?;
    }
    Ok(kept)
}

/// k with those of the morphisms out of a generator that f sends to 0 put below it, in order, that don't factor through what stands there.
fn keep_generator<C: HomFp + Additive>(
    alloc: Global,
    c: &C,
    f: &C::Mor,
    number: u32,
    k: C::Mor,
) -> Result<C::Mor, CatFault>
    requires test { (C.HomFp.category c.now).is_morphism f.now }
    requires number { number < (C.hom c.now).generators }
    requires kept { (C.HomFp.category c.now).is_morphism k }
    requires target { (C.HomFp.category c.now).target k ≡ (C.HomFp.category c.now).source f.now }
    ensures { Answers (IsSizeAtGenerator (record { zero_object = C.zero_object_meets c.now; identity = C.HomFp.identity_meets c.now; zero = C.HomFp.zero_meets c.now; add = C.HomFp.add_meets c.now; compose = C.HomFp.compose_meets c.now; direct_sum = C.direct_sum_meets c.now })
        (C.hom_meets c.now) (C.HomFp.category c.now) (C.hom c.now) (record { zero_object = C.zero_object_of c.now; sum = C.sum_of c.now }) f.now number k)
        (λ m. (m ≡ kept_of (C.HomFp.category c.now) (C.hom c.now) (record { zero_object = C.zero_object_of c.now; sum = C.sum_of c.now }) k (null_morphisms (C.HomFp.category c.now) (C.hom c.now) f.now number))
        × Arrow (C.HomFp.category c.now) ((C.HomFp.category c.now).source m) ((C.HomFp.category c.now).source f.now) m) result }
{
    let x = c.generator(alloc, number)?;
    let unit = c.identity(alloc, &x)?;
    let rows = null_rows_at(alloc, c, &unit, f)?;
    keep_rows(alloc, c, f, &unit, &rows, k)
}

/// The weak kernel of f by generators.
pub(crate) fn weak_kernel<C: HomFp + Additive>(
    alloc: Global,
    c: &C,
    f: &C::Mor,
) -> Result<C::Mor, CatFault>
    requires { (C.HomFp.category c.now).is_morphism f.now }
    ensures { Answers (IsSizeInWeakKernel (record { zero_object = C.zero_object_meets c.now; identity = C.HomFp.identity_meets c.now; zero = C.HomFp.zero_meets c.now; add = C.HomFp.add_meets c.now; compose = C.HomFp.compose_meets c.now; direct_sum = C.direct_sum_meets c.now })
        (C.hom_meets c.now) (C.HomFp.category c.now) (C.hom c.now) (record { zero_object = C.zero_object_of c.now; sum = C.sum_of c.now }) f.now)
        (λ x. x ≡ weak_kernel_of (C.HomFp.category c.now) (C.hom c.now) (record { zero_object = C.zero_object_of c.now; sum = C.sum_of c.now }) f.now) result }
{
    let zero_object = c.zero_object(alloc)?;
    let mut kept = c.zero(alloc, &zero_object, c.source(f))?;
    for number in 0..c.generators() {
        kept = keep_generator(alloc, c, f, number, kept)?;
    }
    Ok(kept)
}
