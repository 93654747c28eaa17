// The matrix of a system and the row of its values: rows for the coefficients of the unknowns, columns for those of the equations.
ghost use Rattle.std.specs.Prelude.{◌≡◌, ℕ, ◌⊎◌, ◌+◌, ◌-◌, ◌*◌, ◌^◌, ◌<◌, ◌≤◌, min, length, slice_index};
ghost use Rattle.cap_matrix.specs.Grid.{entry};
ghost use Rattle.cap_laws.specs.Answers.{Answers, numbers};
ghost use Rattle.cap_laws.specs.Systems.{IsTerm, IsEquation, IsSystem};
ghost use Rattle.cap_homlaw.specs.Hom.{hom_matrix};
ghost use Rattle.cap_solve_laws.specs.Systems.{unknowns_width, values_width, in_rows, equation_columns, system_matrix, values_row};
ghost use Rattle.cap_solve_laws.proofs.Equations.{AreEquations};
ghost use Rattle.cap_solve.specs.Blocks.{IsBlockAdded};
ghost use Rattle.cap_solve.specs.Parts.{AreEnds, AreValues, IsWritten};
ghost use Rattle.cap_solve.specs.Sizes.{OneMeets, IsSizeInEquations};

use crate::blocks::add_block;
use cap_homlaw::HomFp;
use cap_laws::{CatFault, Equation, System, Term};
use cap_matrix::{Matrix, fits};
use cap_names::Items;
use std::alloc::Global;

/// Where the columns of an equation begin in a buffer, and how many columns the buffer has.
#[derive(Clone, Copy)]
struct Columns {
    start: usize,
    width: usize,
}

/// How many coefficients the unknowns have, and 2^32 − 1 where they are more.
fn unknown_count<C: HomFp>(c: &C, unknowns: &[(C::Obj, C::Obj)]) -> u32
    requires { AreEnds (C.category c.now) unknowns.now }
    ensures { result ≡ min (unknowns_width (C.hom c.now) unknowns.now) (2 ^ 32 - 1) }
{
    let mut count: u32 = 0;
    for (from, to) in unknowns {
        count = count.saturating_add(c.dim(from, to));
    }
    count
}

/// How many coefficients the values have, and 2^32 − 1 where they are more.
fn value_count<C: HomFp>(c: &C, equations: &[Equation<C::Mor>]) -> u32
    requires { AreValues (C.category c.now) equations.now }
    ensures { result ≡ min (values_width (C.category c.now) (C.hom c.now) equations.now) (2 ^ 32 - 1) }
{
    let mut count: u32 = 0;
    for equation in equations {
        let value = &equation.value;
        count = count.saturating_add(c.dim(c.source(value), c.target(value)));
    }
    count
}

/// Adds what a term says of the coefficients of the unknowns to the columns of its equation.
fn add_term<C: HomFp>(
    alloc: Global,
    c: &C,
    cells: &mut [u16],
    columns: Columns,
    unknowns: &[(C::Obj, C::Obj)],
    term: &Term<C::Mor>,
) -> Result<(), CatFault>
    requires unknowns { AreEnds (C.category c.now) unknowns.now }
    requires term { IsTerm (C.category c.now) unknowns.now ((C.category c.now).source term.now.left) ((C.category c.now).target term.now.right) term.now }
    requires few { unknowns_width (C.hom c.now) unknowns.now ≤ 2048 }
    requires size { length cells.old ≡ unknowns_width (C.hom c.now) unknowns.now * columns.width }
    requires columns { columns.start + (C.hom c.now).dim ((C.category c.now).source term.now.left) ((C.category c.now).target term.now.right) ≤ columns.width }
    requires small { (k : ℕ) → slice_index cells.old k < (C.category c.now).prime }
    ensures { let n = (C.hom c.now).dim ((C.category c.now).source term.now.left) ((C.category c.now).target term.now.right) in
        Answers ((C.hom_meets c.now).h term.now.left term.now.right)
        (λ _. IsBlockAdded (C.category c.now).prime columns.width cells.old cells.new 0 columns.start (unknowns_width (C.hom c.now) unknowns.now) n
        (entry (in_rows (C.hom c.now) (C.category c.now).prime n unknowns.now term.now.unknown (hom_matrix (C.category c.now) (C.hom c.now) term.now.left term.now.right)).entries)) result }
{
    let block = c.h(alloc, &term.left, &term.right)?;
    let _ = block.cells();
    let row = unknown_count(c, &unknowns[..term.unknown as usize]) as usize;
    add_block(cells, columns.width, row, columns.start, &block);
    Ok(())
}

/// Adds what the terms of an equation say of the coefficients of the unknowns to the columns of the equation.
fn add_terms<C: HomFp>(
    alloc: Global,
    c: &C,
    cells: &mut [u16],
    columns: Columns,
    unknowns: &[(C::Obj, C::Obj)],
    equation: &Equation<C::Mor>,
) -> Result<(), CatFault>
    requires unknowns { AreEnds (C.category c.now) unknowns.now }
    requires equation { IsEquation (C.category c.now) unknowns.now equation.now }
    requires few { unknowns_width (C.hom c.now) unknowns.now ≤ 2048 }
    requires size { length cells.old ≡ unknowns_width (C.hom c.now) unknowns.now * columns.width }
    requires columns { columns.start + (C.hom c.now).dim ((C.category c.now).source equation.now.value) ((C.category c.now).target equation.now.value) ≤ columns.width }
    requires small { (k : ℕ) → slice_index cells.old k < (C.category c.now).prime }
    ensures { let n = (C.hom c.now).dim ((C.category c.now).source equation.now.value) ((C.category c.now).target equation.now.value) in
        Answers (λ z. OneMeets equation.now.terms (λ t. (C.hom_meets c.now).h t.left t.right z))
        (λ _. IsBlockAdded (C.category c.now).prime columns.width cells.old cells.new 0 columns.start (unknowns_width (C.hom c.now) unknowns.now) n
        (entry (equation_columns (C.category c.now) (C.hom c.now) unknowns.now n equation.now.terms).entries)) result }
{
    for term in equation.terms.as_slice() {
        add_term(alloc, c, cells, columns, unknowns, term)?;
    }
    Ok(())
}

/// Writes the matrix of a system to a buffer of zeros with `width` columns, and answers the row of its values.
fn write_equations<C: HomFp>(
    alloc: Global,
    c: &C,
    cells: &mut [u16],
    width: usize,
    unknowns: &[(C::Obj, C::Obj)],
    equations: &[Equation<C::Mor>],
) -> Result<Items<u16>, CatFault>
    requires unknowns { AreEnds (C.category c.now) unknowns.now }
    requires equations { AreEquations (C.category c.now) unknowns.now equations.now }
    requires few { unknowns_width (C.hom c.now) unknowns.now ≤ 2048 }
    requires width { width ≡ values_width (C.category c.now) (C.hom c.now) equations.now }
    requires size { length cells.old ≡ unknowns_width (C.hom c.now) unknowns.now * width }
    requires zeros { (k : ℕ) → slice_index cells.old k ≡ 0 }
    ensures { Answers (IsSizeInEquations (C.hom_meets c.now) equations.now)
        (λ row. IsWritten (C.category c.now) (C.hom c.now) unknowns.now equations.now cells.new row) result }
{
    let mut values = Vec::new(alloc);
    let mut start: usize = 0;
    for equation in equations {
        let columns = Columns { start, width };
        add_terms(alloc, c, cells, columns, unknowns, equation)?;
        let row = c.nu(alloc, &equation.value)?;
        values.extend_from_slice(row.as_slice())?;
        start += row.len();
    }
    Ok(Items::new(values))
}

/// The matrix of a system and the row of its values.
pub(crate) fn row_equation<C: HomFp>(
    alloc: Global,
    c: &C,
    s: &System<C::Obj, C::Mor>,
) -> Result<(Matrix, Items<u16>), CatFault>
    requires { IsSystem (C.category c.now) s.now }
    ensures { Answers (λ z. (z ≡ numbers (unknowns_width (C.hom c.now) s.now.unknowns) (values_width (C.category c.now) (C.hom c.now) s.now.equations))
        ⊎ IsSizeInEquations (C.hom_meets c.now) s.now.equations z)
        (λ x. x ≡ (system_matrix (C.category c.now) (C.hom c.now) s.now.unknowns s.now.equations, values_row (C.hom c.now) s.now.equations)) result }
{
    let unknowns = s.unknowns.as_slice();
    let equations = s.equations.as_slice();
    let rows = unknown_count(c, unknowns);
    let cols = value_count(c, equations);
    if !fits(rows, cols) {
        return Err(CatFault::TooLarge { rows, cols });
    }
    let field = c.field();
    let mut cells = vec![in alloc; 0u16; rows as usize * cols as usize]?;
    let row = write_equations(alloc, c, &mut cells, cols as usize, unknowns, equations)?;
    Ok((Matrix::from_cells(field, rows, cols, cells), row))
}
