// Worked examples.
ghost use Rattle.std.specs.Prelude.{◌≡◌, IfOk};
ghost use Rattle.cap_matrix.specs.Grid.{IsMatrix};
ghost use Rattle.cap_laws.specs.Systems.{IsSystem, term_system};

use cap_field::Field;
use cap_laws::{
    Abelian, Additive, Cat, CatFault, Equation, Lifts, Preadditive, System, Term, WeakCokernels,
    WeakKernels,
};
use cap_matrix::Matrix;
use cap_names::Items;
use cap_vec::{VecCat, VecMor};
use std::alloc::Global;
use std::process::Abort;
use std::test::Fail;

/// The matrix with these cells, row after row, as a morphism.
fn morphism(
    rt: &impl Abort,
    alloc: Global,
    field: Field,
    rows: u32,
    cols: u32,
    cells: &[u16],
) -> VecMor
    ensures matrix { IsMatrix field result }
    ensures rows { result.row_count ≡ rows }
    ensures columns { result.column_count ≡ cols }
{
    let mut m = Matrix::zero(alloc, field, rows, cols).expect(rt, "room for the matrix");
    for i in 0..rows {
        for j in 0..cols {
            let at = i as usize * cols as usize + j as usize;
            let cell = cells.get(at).copied().unwrap_or(0);
            assert!(rt; (cell as u32) < field.prime());
            m.set(i, j, cell);
        }
    }
    let _ = m.field();
    VecMor::new(m)
}

/// A matrix, and what its kernel and its cokernel are.
#[derive(Clone, Copy)]
struct Case<'a> {
    prime: u32,
    rows: u32,
    cols: u32,
    cells: &'a [u16],
    kernel: &'a [u16],
    cokernel: &'a [u16],
}

/// Compares kernels and cokernels with what is expected.
fn compare(rt: &impl Abort, alloc: Global, case: &Case) -> Result<(), Fail> {
    let field = Field::from_prime(case.prime).expect(rt, "a prime of the table");
    let category = VecCat::new(field);
    let f = morphism(rt, alloc, field, case.rows, case.cols, case.cells);
    let kernel = category.kernel(alloc, &f)?;
    assert_eq!(rt; kernel.matrix().cells(), case.kernel);
    assert_eq!(rt; kernel.matrix().cols(), case.rows);
    let weak = category.weak_kernel(alloc, &f)?;
    assert!(rt; weak.matrix().same(kernel.matrix()));
    let cokernel = category.cokernel(alloc, &f)?;
    assert_eq!(rt; cokernel.matrix().cells(), case.cokernel);
    assert_eq!(rt; cokernel.matrix().rows(), case.cols);
    let weak = category.weak_cokernel(alloc, &f)?;
    assert!(rt; weak.matrix().same(cokernel.matrix()));
    Ok(())
}

#[test]
fn kernels_and_cokernels(rt: HostRuntime) -> Result<(), Fail> {
    let cases = [
        Case {
            prime: 5,
            rows: 2,
            cols: 2,
            cells: &[1, 2, 2, 4],
            kernel: &[1, 2],
            cokernel: &[1, 2],
        },
        Case {
            prime: 2,
            rows: 3,
            cols: 2,
            cells: &[1, 1, 0, 0, 1, 1],
            kernel: &[1, 0, 1, 0, 1, 0],
            cokernel: &[1, 1],
        },
        Case {
            prime: 7,
            rows: 1,
            cols: 2,
            cells: &[0, 0],
            kernel: &[1],
            cokernel: &[1, 0, 0, 1],
        },
        Case {
            prime: 3,
            rows: 2,
            cols: 2,
            cells: &[1, 0, 0, 1],
            kernel: &[],
            cokernel: &[],
        },
    ];
    for case in &cases {
        compare(&rt, rt.alloc(), case)?;
    }
    Ok(())
}

/// Whether a morphism has these cells, row after row.
fn has_cells(f: &VecMor, cells: &[u16]) -> bool {
    f.matrix().cells() == cells
}

/// Whether an answer has these cells, or is none where none are wanted.
fn is_answer(u: &Option<VecMor>, cells: Option<&[u16]>) -> bool {
    match (u, cells) {
        (Some(u), Some(cells)) => has_cells(u, cells),
        (None, None) => true,
        _ => false,
    }
}

/// The kernel, in any abelian category.
fn kernel_in<C: Abelian>(category: &C, alloc: Global, f: &C::Mor) -> Result<C::Mor, CatFault>
    requires { (C.category category.now).is_morphism f.now }
{
    category.kernel(alloc, f)
}

#[test]
fn kernels_through_the_bound(rt: HostRuntime) -> Result<(), Fail> {
    let alloc = rt.alloc();
    let field = Field::from_prime(5).expect(&rt, "a prime of the table");
    let category = VecCat::new(field);
    let f = morphism(&rt, alloc, field, 2, 1, &[1, 4]);
    assert!(rt; has_cells(&kernel_in(&category, alloc, &f)?, &[1, 1]));
    Ok(())
}

#[test]
fn lifts_and_colifts(rt: HostRuntime) -> Result<(), Fail> {
    let alloc = rt.alloc();
    let field = Field::from_prime(5).expect(&rt, "a prime of the table");
    let category = VecCat::new(field);
    let f = morphism(&rt, alloc, field, 2, 2, &[1, 2, 2, 4]);
    let cases: [(&[u16], Option<&[u16]>); 3] = [
        (&[2, 4], Some(&[2, 0])),
        (&[0, 0], Some(&[0, 0])),
        (&[1, 0], None),
    ];
    for (cells, answer) in &cases {
        let t = morphism(&rt, alloc, field, 1, 2, cells);
        assert!(rt; is_answer(&category.lift(alloc, &t, &f)?, *answer));
        let t = morphism(&rt, alloc, field, 2, 1, cells);
        assert!(rt; is_answer(&category.colift(alloc, &f, &t)?, *answer));
    }
    Ok(())
}

#[test]
fn pullback_of_a_column_and_one(rt: HostRuntime) -> Result<(), Fail> {
    let alloc = rt.alloc();
    let field = Field::from_prime(5).expect(&rt, "a prime of the table");
    let category = VecCat::new(field);
    let f = morphism(&rt, alloc, field, 2, 1, &[1, 1]);
    let g = morphism(&rt, alloc, field, 1, 1, &[1]);
    let (p, q) = category.pullback(alloc, &f, &g)?;
    assert!(rt; has_cells(&p, &[1, 0, 0, 1]));
    assert!(rt; has_cells(&q, &[1, 1]));
    assert_eq!(rt; q.matrix().rows(), 2);
    Ok(())
}

#[test]
fn pushout_of_one_and_one(rt: HostRuntime) -> Result<(), Fail> {
    let alloc = rt.alloc();
    let field = Field::from_prime(5).expect(&rt, "a prime of the table");
    let category = VecCat::new(field);
    let f = morphism(&rt, alloc, field, 1, 1, &[1]);
    let (i, j) = category.pushout(alloc, &f, &f)?;
    assert!(rt; has_cells(&i, &[1]));
    assert!(rt; has_cells(&j, &[1]));
    Ok(())
}

#[test]
fn linear_structure(rt: HostRuntime) -> Result<(), Fail> {
    let alloc = rt.alloc();
    let field = Field::from_prime(3).expect(&rt, "a prime of the table");
    let category = VecCat::new(field);
    let f = morphism(&rt, alloc, field, 2, 2, &[1, 2, 0, 1]);
    assert!(rt; has_cells(&category.identity(alloc, &2)?, &[1, 0, 0, 1]));
    assert!(rt; has_cells(&category.compose(alloc, &f, &f)?, &[1, 1, 0, 1]));
    assert!(rt; has_cells(&category.add(alloc, &f, &f)?, &[2, 1, 0, 2]));
    assert!(rt; has_cells(&category.scale(alloc, 2, &f)?, &[2, 1, 0, 2]));
    assert!(rt; has_cells(&category.zero(alloc, &1, &2)?, &[0, 0]));
    assert_eq!(rt; category.copy_object(alloc, &7)?, 7);
    let copy = category.copy_morphism(alloc, &f)?;
    assert!(rt; category.same_morphism(&copy, &f));
    assert!(rt; category.congruent(alloc, &f, &f)?);
    assert!(rt; category.same_object(category.source(&f), category.target(&f)));
    assert_eq!(rt; category.field().prime(), 3);
    Ok(())
}

#[test]
fn direct_sums_have_the_first_summand_first(rt: HostRuntime) -> Result<(), Fail> {
    let alloc = rt.alloc();
    let field = Field::from_prime(2).expect(&rt, "a prime of the table");
    let category = VecCat::new(field);
    let sum = category.direct_sum(alloc, &1, &2)?;
    assert!(rt; has_cells(&sum.i1, &[1, 0, 0]));
    assert!(rt; has_cells(&sum.i2, &[0, 1, 0, 0, 0, 1]));
    assert!(rt; has_cells(&sum.p1, &[1, 0, 0]));
    assert!(rt; has_cells(&sum.p2, &[0, 0, 1, 0, 0, 1]));
    assert_eq!(rt; category.zero_object(alloc)?, 0);
    Ok(())
}

#[test]
fn sizes_past_the_limits_are_named(rt: HostRuntime) -> Result<(), Fail> {
    let alloc = rt.alloc();
    let field = Field::from_prime(2).expect(&rt, "a prime of the table");
    let category = VecCat::new(field);
    let large = CatFault::TooLarge {
        rows: 2048,
        cols: 2048,
    };
    assert_eq!(rt; category.identity(alloc, &2048).err(), Some(large));
    let wide = CatFault::TooLarge {
        rows: 3000000000,
        cols: 4294967295,
    };
    assert_eq!(rt;
        category.direct_sum(alloc, &3000000000, &2000000000).err(),
        Some(wide)
    );
    Ok(())
}

#[test]
fn a_kernel_and_a_lift_past_the_limits_are_no_want_of_memory(rt: HostRuntime) -> Result<(), Fail> {
    let alloc = rt.alloc();
    let field = Field::from_prime(2).expect(&rt, "a prime of the table");
    let category = VecCat::new(field);
    let large = CatFault::TooLarge {
        rows: 2048,
        cols: 2048,
    };
    let column = morphism(&rt, alloc, field, 2048, 1, &[]);
    assert_eq!(rt; category.kernel(alloc, &column).err(), Some(large));
    assert_eq!(rt; category.lift(alloc, &column, &column).err(), Some(large));
    let one_row = morphism(&rt, alloc, field, 2048, 1, &[1]);
    assert!(rt; is_answer(&category.lift(alloc, &one_row, &column)?, None));
    Ok(())
}

/// The system l·X·r = v in one unknown.
fn one_equation(
    alloc: Global,
    left: VecMor,
    right: VecMor,
    value: VecMor,
) -> Result<System<u32, VecMor>, CatFault>
    ensures { IfOk result (λ s. s ≡ term_system left.column_count right.row_count left right value) }
{
    let mut unknowns = Vec::new(alloc);
    unknowns.push((left.matrix().cols(), right.matrix().rows()))?;
    let mut terms = Vec::new(alloc);
    terms.push(Term {
        left,
        unknown: 0,
        right,
    })?;
    let mut equations = Vec::new(alloc);
    equations.push(Equation {
        terms: Items::new(terms),
        value,
    })?;
    Ok(System {
        unknowns: Items::new(unknowns),
        equations: Items::new(equations),
    })
}

/// The first part of the solution of a system, in any category with lifts.
fn first_solved<C: Lifts>(
    category: &C,
    alloc: Global,
    s: &System<C::Obj, C::Mor>,
) -> Result<Option<C::Mor>, CatFault>
    requires { IsSystem (C.category category.now) s.now }
{
    match category.solve_system(alloc, s)? {
        Some(solution) => Ok(solution.into_vec().pop()),
        None => Ok(None),
    }
}

/// The solution of l·X·r = v in one unknown.
fn solved(
    category: &VecCat,
    alloc: Global,
    left: VecMor,
    right: VecMor,
    value: VecMor,
) -> Result<Option<VecMor>, CatFault>
    requires left { IsMatrix category.now.field left }
    requires right { IsMatrix category.now.field right }
    requires value { IsMatrix category.now.field value }
    requires rows { value.row_count ≡ left.row_count }
    requires columns { value.column_count ≡ right.column_count }
{
    let s = one_equation(alloc, left, right, value)?;
    first_solved(category, alloc, &s)
}

#[test]
fn systems_are_solved_or_refuted(rt: HostRuntime) -> Result<(), Fail> {
    let alloc = rt.alloc();
    let field = Field::from_prime(5).expect(&rt, "a prime of the table");
    let category = VecCat::new(field);
    let cases: [(&[u16], Option<&[u16]>); 2] = [
        (&[3, 1, 1, 2], Some(&[3, 0, 1, 0, 0, 0])),
        (&[3, 0, 1, 0], None),
    ];
    for (value, answer) in &cases {
        let left = morphism(&rt, alloc, field, 2, 3, &[1, 0, 0, 0, 1, 0]);
        let right = morphism(&rt, alloc, field, 2, 2, &[1, 2, 2, 4]);
        let value = morphism(&rt, alloc, field, 2, 2, value);
        assert!(rt; is_answer(&solved(&category, alloc, left, right, value)?, *answer));
    }
    Ok(())
}

#[test]
fn a_system_past_the_limits_is_no_want_of_memory(rt: HostRuntime) -> Result<(), Fail> {
    let alloc = rt.alloc();
    let field = Field::from_prime(3).expect(&rt, "a prime of the table");
    let category = VecCat::new(field);
    let left = morphism(&rt, alloc, field, 1, 1025, &[]);
    let right = morphism(&rt, alloc, field, 2, 1, &[]);
    let value = morphism(&rt, alloc, field, 1, 1, &[]);
    let large = CatFault::TooLarge {
        rows: 2050,
        cols: 1,
    };
    assert_eq!(rt;
        solved(&category, alloc, left, right, value).err(),
        Some(large)
    );
    Ok(())
}
