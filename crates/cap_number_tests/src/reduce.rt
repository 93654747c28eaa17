// Worked examples.
ghost use Rattle.std.specs.Prelude.{◌≡◌};

use cap_field::Field;
use cap_matrix::{Matrix, MatrixFault, TooLarge};
use cap_reduce::{
    Items, Solved, SolvedRows, greedy, null_rows, reduce_in_place, rref, solve, solve_rows,
};
use std::alloc::{AllocError, Global};
use std::process::Abort;
use std::test::Fail;

/// The matrix over F_p with these cells, row after row.
fn matrix(rt: &impl Abort, alloc: Global, p: u32, rows: u32, cols: u32, cells: &[u16]) -> Matrix
    ensures rows { result.row_count ≡ rows }
    ensures columns { result.column_count ≡ cols }
    ensures prime { result.prime ≡ p }
{
    let field = Field::from_prime(p).expect(rt, "a prime of the table");
    let mut m = Matrix::zero(alloc, field, rows, cols).expect(rt, "room for the matrix");
    for i in 0..rows {
        for j in 0..cols {
            let at = i as usize * cols as usize + j as usize;
            let cell = cells.get(at).copied().unwrap_or(0);
            assert!(rt; (cell as u32) < field.prime());
            m.set(i, j, cell);
        }
    }
    m
}

/// A matrix, and what the calls make of it.
#[derive(Clone, Copy)]
struct Case<'a> {
    prime: u32,
    rows: u32,
    cols: u32,
    cells: &'a [u16],
    form: &'a [u16],
    nulls: &'a [u16],
    greedy: &'a [u32],
}

/// Compares the four calls on a matrix with what is expected.
fn compare(rt: &impl Abort, alloc: Global, case: &Case) -> Result<(), Fail> {
    let mut m = matrix(rt, alloc, case.prime, case.rows, case.cols, case.cells);
    let form = rref(alloc, &m)?;
    assert_eq!(rt; form.cells(), case.form);
    assert_eq!(rt; form.cols(), case.cols);
    let nulls = null_rows(alloc, &m)?;
    assert_eq!(rt; nulls.cells(), case.nulls);
    assert_eq!(rt; nulls.cols(), case.rows);
    assert_eq!(rt; greedy(alloc, &m)?.as_slice(), case.greedy);
    assert_eq!(rt; reduce_in_place(&mut m), form.rows());
    let filled = form.cells().len();
    assert!(rt; filled <= m.cells().len());
    assert_eq!(rt; &m.cells()[..filled], form.cells());
    assert!(rt; m.cells()[filled..].iter().all(|x| *x == 0));
    Ok(())
}

#[test]
fn forms_null_rows_and_greedy_rows(rt: HostRuntime) -> Result<(), Fail> {
    let cases = [
        Case {
            prime: 5,
            rows: 2,
            cols: 2,
            cells: &[1, 2, 2, 4],
            form: &[1, 2],
            nulls: &[1, 2],
            greedy: &[0],
        },
        Case {
            prime: 2,
            rows: 3,
            cols: 3,
            cells: &[1, 1, 0, 0, 1, 1, 1, 0, 1],
            form: &[1, 0, 1, 0, 1, 1],
            nulls: &[1, 1, 1],
            greedy: &[0, 1],
        },
        Case {
            prime: 7,
            rows: 2,
            cols: 2,
            cells: &[0, 3, 2, 0],
            form: &[1, 0, 0, 1],
            nulls: &[],
            greedy: &[0, 1],
        },
        Case {
            prime: 101,
            rows: 3,
            cols: 2,
            cells: &[0, 0, 7, 100, 14, 99],
            form: &[1, 72],
            nulls: &[1, 0, 0, 0, 1, 50],
            greedy: &[1],
        },
        Case {
            prime: 251,
            rows: 2,
            cols: 4,
            cells: &[0, 250, 5, 1, 0, 2, 17, 30],
            form: &[0, 1, 0, 70, 0, 0, 1, 215],
            nulls: &[],
            greedy: &[0, 1],
        },
        Case {
            prime: 3,
            rows: 4,
            cols: 2,
            cells: &[1, 2, 2, 1, 0, 1, 1, 0],
            form: &[1, 0, 0, 1],
            nulls: &[1, 0, 1, 2, 0, 1, 2, 1],
            greedy: &[0, 2],
        },
        Case {
            prime: 11,
            rows: 3,
            cols: 2,
            cells: &[0, 0, 0, 0, 0, 0],
            form: &[],
            nulls: &[1, 0, 0, 0, 1, 0, 0, 0, 1],
            greedy: &[],
        },
        Case {
            prime: 13,
            rows: 0,
            cols: 3,
            cells: &[],
            form: &[],
            nulls: &[],
            greedy: &[],
        },
        Case {
            prime: 17,
            rows: 3,
            cols: 0,
            cells: &[],
            form: &[],
            nulls: &[1, 0, 0, 0, 1, 0, 0, 0, 1],
            greedy: &[],
        },
    ];
    for case in &cases {
        compare(&rt, rt.alloc(), case)?;
    }
    Ok(())
}

#[test]
fn null_rows_past_the_limits_name_their_size(rt: HostRuntime) -> Result<(), Fail> {
    let m = matrix(&rt, rt.alloc(), 2, 2048, 0, &[]);
    let fault = null_rows(rt.alloc(), &m).err();
    assert_eq!(rt;
        fault,
        Some(MatrixFault::TooLarge(TooLarge {
            rows: 2048,
            cols: 2048
        }))
    );
    Ok(())
}

/// The entries of a solution, or those of an obstruction after the number 1000.
fn entries(alloc: Global, s: &Solved) -> Result<Vec<u16>, AllocError> {
    match s {
        Solved::Row(x) => x.as_slice().to_vec(alloc),
        Solved::Obstruction(y) => {
            let mut all = vec![in alloc; 1000]?;
            all.extend_from_slice(y.as_slice())?;
            Ok(all)
        }
    }
}

#[test]
fn solutions_and_obstructions(rt: HostRuntime) -> Result<(), Fail> {
    let alloc = rt.alloc();
    let z = matrix(&rt, alloc, 5, 2, 2, &[1, 2, 2, 4]);
    assert_eq!(rt;
        entries(alloc, &solve(alloc, &z, &[2, 4])?)?.as_slice(),
        [2, 0].as_slice()
    );
    assert_eq!(rt;
        entries(alloc, &solve(alloc, &z, &[1, 0])?)?.as_slice(),
        [1000, 3, 1].as_slice()
    );
    let tall = matrix(&rt, alloc, 3, 4, 2, &[1, 2, 2, 1, 0, 1, 1, 0]);
    assert_eq!(rt;
        entries(alloc, &solve(alloc, &tall, &[1, 1])?)?.as_slice(),
        [1, 0, 2, 0].as_slice()
    );
    let thin = matrix(&rt, alloc, 101, 3, 2, &[0, 0, 7, 100, 14, 99]);
    assert_eq!(rt;
        entries(alloc, &solve(alloc, &thin, &[14, 99])?)?.as_slice(),
        [0, 2, 0].as_slice()
    );
    assert_eq!(rt;
        entries(alloc, &solve(alloc, &thin, &[1, 0])?)?.as_slice(),
        [1000, 29, 1].as_slice()
    );
    let none = matrix(&rt, alloc, 251, 0, 1, &[]);
    assert_eq!(rt;
        entries(alloc, &solve(alloc, &none, &[0])?)?.as_slice(),
        [].as_slice()
    );
    assert_eq!(rt;
        entries(alloc, &solve(alloc, &none, &[250])?)?.as_slice(),
        [1000, 1].as_slice()
    );
    Ok(())
}

/// Systems with one matrix, and their solutions or the number of the first that has none after the number 1000.
#[derive(Clone, Copy)]
struct Systems<'a> {
    prime: u32,
    rows: u32,
    cols: u32,
    cells: &'a [u16],
    count: u32,
    values: &'a [u16],
    answer: &'a [u16],
}

/// The solutions, or the number of a row after the number 1000.
fn answers(alloc: Global, s: &SolvedRows) -> Result<Vec<u16>, AllocError> {
    match s {
        SolvedRows::All(xs) => xs.as_slice().to_vec(alloc),
        SolvedRows::Unsolved(i) => Ok(vec![in alloc; 1000, (*i % 1000) as u16]?),
    }
}

/// Compares the answer to systems with what is expected.
fn compare_systems(rt: &impl Abort, alloc: Global, case: &Systems) -> Result<(), Fail> {
    let m = matrix(rt, alloc, case.prime, case.rows, case.cols, case.cells);
    let t = matrix(rt, alloc, case.prime, case.count, case.cols, case.values);
    let found = answers(alloc, &solve_rows(alloc, &m, &t)?)?;
    assert_eq!(rt; found.as_slice(), case.answer);
    Ok(())
}

#[test]
fn many_systems_at_once(rt: HostRuntime) -> Result<(), Fail> {
    let cases = [
        Systems {
            prime: 5,
            rows: 2,
            cols: 2,
            cells: &[1, 2, 2, 4],
            count: 3,
            values: &[2, 4, 0, 0, 3, 1],
            answer: &[2, 0, 0, 0, 3, 0],
        },
        Systems {
            prime: 5,
            rows: 2,
            cols: 2,
            cells: &[1, 2, 2, 4],
            count: 3,
            values: &[2, 4, 1, 0, 0, 1],
            answer: &[1000, 1],
        },
        Systems {
            prime: 3,
            rows: 4,
            cols: 2,
            cells: &[1, 2, 2, 1, 0, 1, 1, 0],
            count: 2,
            values: &[1, 1, 0, 2],
            answer: &[1, 0, 2, 0, 0, 0, 2, 0],
        },
        Systems {
            prime: 101,
            rows: 3,
            cols: 2,
            cells: &[0, 0, 7, 100, 14, 99],
            count: 0,
            values: &[],
            answer: &[],
        },
        Systems {
            prime: 2,
            rows: 3,
            cols: 0,
            cells: &[],
            count: 1,
            values: &[],
            answer: &[0, 0, 0],
        },
    ];
    for case in &cases {
        compare_systems(&rt, rt.alloc(), case)?;
    }
    Ok(())
}

#[test]
fn a_list_shows_its_elements(rt: HostRuntime) -> Result<(), Fail> {
    let list = Items::new(vec![in rt.alloc(); 3u32, 1]?);
    assert_eq!(rt; list.as_slice(), [3, 1].as_slice());
    Ok(())
}
