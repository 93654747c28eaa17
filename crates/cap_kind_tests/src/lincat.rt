// Worked examples.
use cap_field::Field;
use cap_lincat::{BadTable, LinTable, ProductRow, Table, TableFault, TableParts};
use cap_names::Items;
use std::alloc::{AllocError, Global};
use std::test::Fail;

/// A product by its numbers and coefficients.
fn product(alloc: Global, i: u32, j: u32, coeffs: &[u16]) -> Result<ProductRow, AllocError> {
    let row = coeffs.to_vec(alloc)?;
    Ok(ProductRow {
        i,
        j,
        coeffs: Items::new(row),
    })
}

/// A table with one object, the unit e, and these products of the three basis elements.
fn parts(
    alloc: Global,
    field: Field,
    unit: &[u16],
    given: &[(u32, u32, [u16; 3])],
) -> Result<TableParts, AllocError> {
    let mut products = Vec::new(alloc);
    for (i, j, coeffs) in given {
        products.push(product(alloc, *i, *j, coeffs)?)?;
    }
    let row = unit.to_vec(alloc)?;
    let mut units = Vec::new(alloc);
    units.push(Items::new(row))?;
    let basis = [(0, 0), (0, 0), (0, 0)].to_vec(alloc)?;
    Ok(TableParts {
        field,
        objects: 1,
        basis: Items::new(basis),
        units: Items::new(units),
        products: Items::new(products),
    })
}

/// The products with the unit.
const WITH_UNIT: [(u32, u32, [u16; 3]); 5] = [
    (0, 0, [1, 0, 0]),
    (0, 1, [0, 1, 0]),
    (1, 0, [0, 1, 0]),
    (0, 2, [0, 0, 1]),
    (2, 0, [0, 0, 1]),
];

#[test]
fn the_first_fault_is_told(rt: HostRuntime) -> Result<(), Fail> {
    let alloc = rt.alloc();
    let field = Field::from_prime(2).ok_or("a prime of the table")?;
    let mut given = WITH_UNIT.as_slice().to_vec(alloc)?;
    given.push((1, 1, [0, 0, 1]))?;
    given.push((1, 2, [0, 1, 0]))?;
    let cases = [
        (
            [1, 0, 0].as_slice(),
            7,
            BadTable::NotAssociative { i: 2, j: 2, k: 2 },
        ),
        ([0, 1, 0].as_slice(), 7, BadTable::BadUnit { basis: 1 }),
        ([1, 0, 0].as_slice(), 3, BadTable::BadUnit { basis: 3 }),
        ([1, 2, 0].as_slice(), 5, BadTable::Dim),
        ([1, 0].as_slice(), 5, BadTable::Dim),
    ];
    for (unit, count, fault) in cases {
        assert!(rt; count <= given.len());
        let made = LinTable::make(alloc, parts(alloc, field, unit, &given[..count])?);
        assert!(rt; made.is_err_and(|e| e == TableFault::Bad(fault)));
    }
    Ok(())
}

#[test]
fn a_table_is_made_and_copied(rt: HostRuntime) -> Result<(), Fail> {
    let alloc = rt.alloc();
    let field = Field::from_prime(2).ok_or("a prime of the table")?;
    let made = LinTable::make(alloc, parts(alloc, field, &[1, 0, 0], &WITH_UNIT)?);
    let table = made.ok().ok_or("a table")?;
    let copy = table.copy(alloc)?;
    assert!(rt; copy.field().prime() == 2);
    assert!(rt; copy.objects() == 1);
    assert!(rt; copy.hom(0, 0) == [0, 1, 2].as_slice());
    assert!(rt; copy.unit(0) == [1, 0, 0].as_slice());
    Ok(())
}
