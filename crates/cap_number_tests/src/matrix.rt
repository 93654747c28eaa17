use cap_field::Field;
use cap_matrix::{Matrix, MatrixFault, TooLarge};
use std::alloc::Global;
use std::process::Abort;
use std::test::Fail;

fn field_of_five(rt: &impl Abort) -> Field {
    Field::from_prime(5).expect(rt, "a prime of the table")
}

/// The matrix over the field of 5 elements with the given entries, row after row.
fn matrix(
    rt: &impl Abort,
    alloc: Global,
    rows: u32,
    cols: u32,
    entries: &[u16],
) -> Result<Matrix, Fail> {
    let mut made = Matrix::zero(alloc, field_of_five(rt), rows, cols)?;
    let mut rest = entries.iter();
    for i in 0..rows {
        for j in 0..cols {
            let v = *rest.next().expect(rt, "an entry for each cell");
            assert!(rt; i < made.rows() && j < made.cols() && (v as u32) < made.field().prime());
            made.set(i, j, v);
        }
    }
    Ok(made)
}

/// The matrix [1 2; 3 4].
fn x(rt: &impl Abort, alloc: Global) -> Result<Matrix, Fail> {
    matrix(rt, alloc, 2, 2, &[1, 2, 3, 4])
}

/// The matrix [0 1; 1 0].
fn y(rt: &impl Abort, alloc: Global) -> Result<Matrix, Fail> {
    matrix(rt, alloc, 2, 2, &[0, 1, 1, 0])
}

fn assert_shows(rt: &impl Abort, m: &Matrix, rows: u32, cols: u32, entries: &[u16]) {
    assert_eq!(rt; m.field().prime(), 5);
    assert_eq!(rt; (m.rows(), m.cols()), (rows, cols));
    assert_eq!(rt; m.cells(), entries);
}

#[test]
fn zero_identity_and_copy(rt: HostRuntime) -> Result<(), Fail> {
    let alloc = rt.alloc();
    let field = field_of_five(&rt);
    assert_shows(&rt, &Matrix::zero(alloc, field, 1, 2)?, 1, 2, &[0, 0]);
    assert_shows(&rt, &Matrix::zero(alloc, field, 0, 3)?, 0, 3, &[]);
    assert_shows(
        &rt,
        &Matrix::identity(alloc, field, 2)?,
        2,
        2,
        &[1, 0, 0, 1],
    );
    assert_shows(&rt, &x(&rt, alloc)?.copy(alloc)?, 2, 2, &[1, 2, 3, 4]);
    Ok(())
}

#[test]
fn entries_are_read_and_written_in_place(rt: HostRuntime) -> Result<(), Fail> {
    let alloc = rt.alloc();
    let mut m = matrix(&rt, alloc, 2, 3, &[1, 2, 3, 4, 0, 1])?;
    assert!(rt; m.rows() == 2);
    assert!(rt; m.cols() == 3);
    assert!(rt; m.field().prime() == 5);
    assert_eq!(rt; (m.at(0, 2), m.at(1, 0)), (3, 4));
    m.set(1, 0, 2);
    assert_shows(&rt, &m, 2, 3, &[1, 2, 3, 2, 0, 1]);
    Ok(())
}

#[test]
fn matrices_are_the_same_with_equal_fields_sizes_and_entries(rt: HostRuntime) -> Result<(), Fail> {
    let alloc = rt.alloc();
    let field = field_of_five(&rt);
    let seven = Field::from_prime(7).ok_or("7 is a prime of the table")?;
    let one = x(&rt, alloc)?;
    assert!(rt; one.same(&x(&rt, alloc)?));
    assert!(rt; !one.same(&y(&rt, alloc)?));
    assert!(rt; !one.same(&matrix(&rt, alloc, 1, 4, &[1, 2, 3, 4])?));
    assert!(rt; !Matrix::zero(alloc, field, 1, 2)?.same(&Matrix::zero(alloc, seven, 1, 2)?));
    assert!(rt; !Matrix::zero(alloc, field, 0, 2)?.same(&Matrix::zero(alloc, field, 0, 1)?));
    Ok(())
}

#[test]
fn products_sums_and_multiples(rt: HostRuntime) -> Result<(), Fail> {
    let alloc = rt.alloc();
    let (x, y) = (x(&rt, alloc)?, y(&rt, alloc)?);
    assert!(rt; x.field() == y.field());
    assert!(rt; x.rows() == y.rows());
    assert!(rt; x.cols() == y.cols());
    assert!(rt; x.cols() == y.rows());
    assert_shows(&rt, &x.product(alloc, &y)?, 2, 2, &[2, 1, 4, 3]);
    assert_shows(&rt, &x.sum(alloc, &y)?, 2, 2, &[1, 3, 4, 4]);
    assert!(rt; x.field().prime() == 5);
    assert_shows(&rt, &x.scale(alloc, 2)?, 2, 2, &[2, 4, 1, 3]);
    Ok(())
}

#[test]
fn joins_blocks_and_transposes(rt: HostRuntime) -> Result<(), Fail> {
    let alloc = rt.alloc();
    let (x, y) = (x(&rt, alloc)?, y(&rt, alloc)?);
    assert!(rt; x.field() == y.field());
    assert!(rt; x.rows() == y.rows());
    assert!(rt; x.cols() == y.cols());
    assert_shows(&rt, &x.stack(alloc, &y)?, 4, 2, &[1, 2, 3, 4, 0, 1, 1, 0]);
    assert_shows(&rt, &x.beside(alloc, &y)?, 2, 4, &[1, 2, 0, 1, 3, 4, 1, 0]);
    assert_shows(&rt, &x.transpose(alloc)?, 2, 2, &[1, 3, 2, 4]);
    assert!(rt; x.rows() == 2);
    assert!(rt; x.cols() == 2);
    assert_shows(&rt, &x.block(alloc, 0, 1, 2, 1)?, 2, 1, &[2, 4]);
    Ok(())
}

#[test]
fn joins_and_transposes_of_unequal_sizes(rt: HostRuntime) -> Result<(), Fail> {
    let alloc = rt.alloc();
    let (x, row) = (x(&rt, alloc)?, matrix(&rt, alloc, 1, 2, &[4, 0])?);
    let wide = matrix(&rt, alloc, 2, 3, &[1, 2, 3, 4, 0, 1])?;
    assert!(rt; x.field() == row.field());
    assert!(rt; x.cols() == row.cols());
    assert_shows(&rt, &x.stack(alloc, &row)?, 3, 2, &[1, 2, 3, 4, 4, 0]);
    assert!(rt; x.field() == wide.field());
    assert!(rt; x.rows() == wide.rows());
    assert_shows(
        &rt,
        &x.beside(alloc, &wide)?,
        2,
        5,
        &[1, 2, 1, 2, 3, 3, 4, 4, 0, 1],
    );
    assert_shows(&rt, &wide.transpose(alloc)?, 3, 2, &[1, 4, 2, 0, 3, 1]);
    Ok(())
}

#[test]
fn kronecker_products(rt: HostRuntime) -> Result<(), Fail> {
    let alloc = rt.alloc();
    let (x, y, row) = (
        x(&rt, alloc)?,
        y(&rt, alloc)?,
        matrix(&rt, alloc, 1, 2, &[1, 2])?,
    );
    assert!(rt; x.field() == y.field());
    assert!(rt; x.field() == row.field());
    assert_shows(&rt, &x.kron(alloc, &row)?, 2, 4, &[1, 2, 2, 4, 3, 1, 4, 3]);
    assert_shows(
        &rt,
        &x.kron(alloc, &y)?,
        4,
        4,
        &[0, 1, 0, 2, 1, 0, 2, 0, 0, 3, 0, 4, 3, 0, 4, 0],
    );
    Ok(())
}

#[test]
fn a_matrix_is_taken_out_and_put_back(rt: HostRuntime) -> Result<(), Fail> {
    let alloc = rt.alloc();
    let mut m = x(&rt, alloc)?;
    let taken = m.take();
    assert_shows(&rt, &m, 0, 0, &[]);
    assert_shows(&rt, &taken, 2, 2, &[1, 2, 3, 4]);
    let (field, rows, cols) = (taken.field(), taken.rows(), taken.cols());
    m = Matrix::from_cells(field, rows, cols, taken.into_cells());
    assert_shows(&rt, &m, 2, 2, &[1, 2, 3, 4]);
    Ok(())
}

fn fault_of(made: Result<Matrix, MatrixFault>) -> Option<TooLarge> {
    match made {
        Err(MatrixFault::TooLarge(size)) => Some(size),
        _ => None,
    }
}

#[test]
fn sizes_past_the_limits_are_named(rt: HostRuntime) -> Result<(), Fail> {
    let alloc = rt.alloc();
    let field = field_of_five(&rt);
    for (rows, cols, refused) in [
        (2048, 512, false),
        (2048, 0, false),
        (0, 2048, false),
        (2049, 0, true),
        (2049, 1, true),
        (1, 2049, true),
        (2048, 2048, true),
        (1024, 1025, true),
    ] {
        let fault = fault_of(Matrix::zero(alloc, field, rows, cols));
        assert_eq!(rt;
            fault,
            if refused {
                Some(TooLarge { rows, cols })
            } else {
                None
            }
        );
    }
    let fault = fault_of(Matrix::identity(alloc, field, 1025));
    assert_eq!(rt;
        fault,
        Some(TooLarge {
            rows: 1025,
            cols: 1025
        })
    );
    Ok(())
}

#[test]
fn results_past_the_limits_are_named(rt: HostRuntime) -> Result<(), Fail> {
    let alloc = rt.alloc();
    let field = field_of_five(&rt);
    let (tall, wide) = (
        Matrix::zero(alloc, field, 2048, 1)?,
        Matrix::zero(alloc, field, 1, 2048)?,
    );
    let size = Some(TooLarge {
        rows: 2048,
        cols: 2048,
    });
    assert_eq!(rt; fault_of(tall.product(alloc, &wide)), size);
    assert_eq!(rt; fault_of(tall.kron(alloc, &wide)), size);
    assert_eq!(rt;
        fault_of(tall.stack(alloc, &tall)),
        Some(TooLarge {
            rows: 4096,
            cols: 1
        })
    );
    assert_eq!(rt;
        fault_of(wide.beside(alloc, &wide)),
        Some(TooLarge {
            rows: 1,
            cols: 4096
        })
    );
    Ok(())
}

#[test]
fn faults_have_texts(rt: HostRuntime) -> Result<(), Fail> {
    let size = TooLarge {
        rows: 3000,
        cols: 2,
    };
    let text = format!(in rt.alloc();
        "{}; {}",
        MatrixFault::TooLarge(size),
        MatrixFault::NoMemory
    )?;
    assert_eq!(rt;
        text.as_str(),
        "a matrix of 3000 rows and 2 columns is past the limits; out of memory"
    );
    Ok(())
}
