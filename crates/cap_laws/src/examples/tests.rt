// Each generic call once at the small categories.
ghost use Rattle.std.specs.Prelude.{◌≡◌, ◌<◌, IfOk, IsTrue};
ghost use Rattle.cap_laws.specs.Systems.{IsSystem, one_system};
ghost use Rattle.cap_laws.specs.NullCategory.{null, null_data};

use super::null::{Null, NullCategory};
use super::scalars::{Scalar, Scalars};
use crate::{
    Abelian, Additive, Cat, CatFault, Equation, Lifts, Preadditive, System, Table, Term,
    WeakCokernels, WeakKernels, laws,
};
use cap_field::Field;
use cap_names::{Items, NoMemory, TooLarge};
use std::alloc::Global;

/// Whether 1·f is congruent to f.
fn has_unit<C: Cat>(c: &C, alloc: Global, f: &C::Mor) -> Result<bool, CatFault>
    requires { (C.category c.now).is_morphism f.now }
    ensures { IfOk result (λ b. IsTrue b) }
{
    let first = c.identity(alloc, c.source(f))?;
    let left = c.compose(alloc, &first, f)?;
    c.congruent(alloc, &left, f)
}

/// Whether f·0 is congruent to 0.
fn kills_zero<C: Preadditive>(c: &C, alloc: Global, f: &C::Mor) -> Result<bool, CatFault>
    requires { (C.category c.now).is_morphism f.now }
{
    let zero = c.zero(alloc, c.target(f), c.target(f))?;
    let composed = c.compose(alloc, f, &zero)?;
    let want = c.zero(alloc, c.source(f), c.target(f))?;
    c.congruent(alloc, &composed, &want)
}

/// f + (−1)·f.
fn cancelled<C: Preadditive>(c: &C, alloc: Global, f: &C::Mor) -> Result<C::Mor, CatFault>
    requires { (C.category c.now).is_morphism f.now }
{
    let minus_one = (c.field().prime() - 1) as u16;
    let negative = c.scale(alloc, minus_one, f)?;
    c.add(alloc, f, &negative)
}

/// Whether i1·p1 is congruent to 1 in a direct sum of a zero object with itself.
fn sums_zero<C: Additive>(c: &C, alloc: Global) -> Result<bool, CatFault> {
    let z = c.zero_object(alloc)?;
    let sum = c.direct_sum(alloc, &z, &z)?;
    let there_and_back = c.compose(alloc, &sum.i1, &sum.p1)?;
    let one = c.identity(alloc, &z)?;
    c.congruent(alloc, &there_and_back, &one)
}

/// A weak kernel of f, followed by f.
fn weak_kernel_then<C: WeakKernels>(c: &C, alloc: Global, f: &C::Mor) -> Result<C::Mor, CatFault>
    requires { (C.category c.now).is_morphism f.now }
{
    let i = c.weak_kernel(alloc, f)?;
    c.compose(alloc, &i, f)
}

/// f, followed by a weak cokernel of f.
fn then_weak_cokernel<C: WeakCokernels>(
    c: &C,
    alloc: Global,
    f: &C::Mor,
) -> Result<C::Mor, CatFault>
    requires { (C.category c.now).is_morphism f.now }
{
    let p = c.weak_cokernel(alloc, f)?;
    c.compose(alloc, f, &p)
}

/// A kernel of f lifted along itself.
fn kernel_lifted<C: Abelian>(c: &C, alloc: Global, f: &C::Mor) -> Result<Option<C::Mor>, CatFault>
    requires { (C.category c.now).is_morphism f.now }
{
    let i = c.kernel(alloc, f)?;
    c.lift(alloc, &i, &i)
}

/// A cokernel of f colifted along itself.
fn cokernel_colifted<C: Abelian>(
    c: &C,
    alloc: Global,
    f: &C::Mor,
) -> Result<Option<C::Mor>, CatFault>
    requires { (C.category c.now).is_morphism f.now }
{
    let p = c.cokernel(alloc, f)?;
    c.colift(alloc, &p, &p)
}

/// The number of the solutions' parts, where there is a solution.
fn solved<C: Lifts>(c: &C, alloc: Global, s: &System<C::Obj, C::Mor>) -> Result<usize, CatFault>
    requires { IsSystem (C.category c.now) s.now }
{
    Ok(match c.solve_system(alloc, s)? {
        Some(solution) => solution.len(),
        None => 0,
    })
}

#[test]
fn residues_modulo_five(rt: HostRuntime) {
    let field = Field::from_prime(5).expect(&rt, "a prime of the table");
    let c = Scalars::new(field);
    let alloc = rt.alloc();
    for (value, weak) in [(0, 1), (1, 0), (3, 0)] {
        assert!(rt; value < 5);
        let f = Scalar::new(value);
        let zero = Scalar::new(0);
        assert!(rt; has_unit(&c, alloc, &f).expect(&rt, "memory"));
        assert!(rt; kills_zero(&c, alloc, &f).expect(&rt, "memory"));
        let sum = cancelled(&c, alloc, &f).expect(&rt, "memory");
        assert!(rt; sum.value() == 0, "{value}");
        let before = weak_kernel_then(&c, alloc, &f).expect(&rt, "memory");
        assert!(rt; before.value() == 0, "{value}");
        let after = then_weak_cokernel(&c, alloc, &f).expect(&rt, "memory");
        assert!(rt; after.value() == 0, "{value}");
        let kernel = c.weak_kernel(alloc, &f).expect(&rt, "memory");
        assert!(rt; kernel.value() == weak, "{value}");
        assert!(rt; c.same_morphism(&f, &zero) == (value == 0), "{value}");
    }
}

#[test]
fn copies(rt: HostRuntime) {
    let field = Field::from_prime(5).expect(&rt, "a prime of the table");
    let c = Scalars::new(field);
    let f = Scalar::new(4);
    let g = c.copy_morphism(rt.alloc(), &f).expect(&rt, "memory");
    assert!(rt; c.same_morphism(&f, &g));
    let a = c
        .copy_object(rt.alloc(), c.source(&f))
        .expect(&rt, "memory");
    assert!(rt; c.same_object(&a, c.target(&g)));
}

#[test]
fn a_table_with_one_basis_element(rt: HostRuntime) {
    let field = Field::from_prime(7).expect(&rt, "a prime of the table");
    let t = Scalars::new(field);
    assert!(rt; Table::field(&t).prime() == 7);
    assert!(rt; t.objects() == 1);
    assert!(rt; t.hom(0, 0) == [0].as_slice());
    assert!(rt; t.ends(0) == (0, 0));
    assert!(rt; t.unit(0) == [1].as_slice());
    assert!(rt; t.product(0, 0) == [1].as_slice());
}

#[test]
fn one_morphism_between_any_two_objects(rt: HostRuntime) {
    let field = Field::from_prime(2).expect(&rt, "a prime of the table");
    let c = NullCategory::new(field);
    let alloc = rt.alloc();
    let f = Null { from: 3, to: 4 };
    assert!(rt; has_unit(&c, alloc, &f).expect(&rt, "memory"));
    assert!(rt; sums_zero(&c, alloc).expect(&rt, "memory"));
    let lifted = kernel_lifted(&c, alloc, &f).expect(&rt, "memory");
    assert!(rt; lifted.is_some());
    let colifted = cokernel_colifted(&c, alloc, &f).expect(&rt, "memory");
    assert!(rt; colifted.is_some());
    let before = weak_kernel_then(&c, alloc, &f).expect(&rt, "memory");
    assert!(rt; before.to == 4);
    let after = then_weak_cokernel(&c, alloc, &f).expect(&rt, "memory");
    assert!(rt; after.from == 3);
}

#[test]
fn parts_without_coefficients_are_counted_by_rows_and_columns_alone(rt: HostRuntime) {
    let field = Field::from_prime(2).expect(&rt, "a prime of the table");
    let c = NullCategory::new(field);
    let alloc = rt.alloc();
    for parts in [1100, 2048] {
        let one = c.identity(alloc, &parts).expect(&rt, "memory");
        assert!(rt; one.from == parts && one.to == parts, "{parts}");
    }
    let large = c.identity(alloc, &2049);
    assert!(rt;
        large.is_err_and(|e| e
            == CatFault::TooLarge {
                rows: 2049,
                cols: 2049
            })
    );
    let wide = Null { from: 1, to: 2049 };
    let copy = c.copy_morphism(alloc, &wide).expect(&rt, "memory");
    assert!(rt; c.same_morphism(&wide, &copy));
}

/// X·r = v in one unknown X: 1→2, where r: 2→2 and v: 1→2.
fn one_equation(alloc: Global) -> Result<System<u32, Null>, CatFault>
    ensures { IfOk result (λ s. s ≡ one_system (null_data 2) 1 2 (null 2 2) (null 1 2)) }
{
    let term = Term {
        left: Null { from: 1, to: 1 },
        unknown: 0,
        right: Null { from: 2, to: 2 },
    };
    let mut terms = Vec::new(alloc);
    terms.push(term)?;
    let mut equations = Vec::new(alloc);
    equations.push(Equation {
        terms: Items::new(terms),
        value: Null { from: 1, to: 2 },
    })?;
    let mut unknowns = Vec::new(alloc);
    unknowns.push((1, 2))?;
    Ok(System {
        unknowns: Items::new(unknowns),
        equations: Items::new(equations),
    })
}

#[test]
fn a_system_with_one_equation(rt: HostRuntime) {
    let field = Field::from_prime(2).expect(&rt, "a prime of the table");
    let c = NullCategory::new(field);
    let s = one_equation(rt.alloc()).expect(&rt, "memory");
    assert!(rt; solved(&c, rt.alloc(), &s).expect(&rt, "memory") == 1);
}

#[test]
fn laws_are_taken_by_calls(rt: HostRuntime) {
    laws::law_congruence_calculus::<Scalars>();
    laws::law_difference_is_zero::<Scalars>();
    laws::law_zero_composes::<Scalars>();
    laws::law_negation::<Scalars>();
    laws::law_differences_compose::<Scalars>();
    laws::law_mono_cancels::<Scalars>();
    laws::law_kernel_is_mono::<Scalars>();
    laws::law_kernels_are_isomorphic::<Scalars>();
    laws::law_factoring_is_an_ideal::<Scalars>();
    laws::law_weak_kernel_is_a_preimage::<Scalars>();
    laws::law_splits_give_kernels::<Scalars>();
    laws::law_factoring_by_a_system::<Scalars>();
    laws::law_opposite_is_linear::<Scalars>();
    laws::law_opposite_is_abelian::<NullCategory>();
    laws::law_basis_products::<Scalars>();
}

#[test]
fn faults(rt: HostRuntime) {
    let large = CatFault::from(TooLarge {
        rows: 2049,
        cols: 3,
    });
    let memory = CatFault::from(NoMemory);
    for (fault, want) in [
        (
            large,
            "a matrix of 2049 rows and 3 columns is past the limits",
        ),
        (memory, "out of memory"),
    ] {
        let text = fault.to_string(rt.alloc()).expect(&rt, "memory");
        assert!(rt; text.as_str() == want, "{want}");
    }
}
