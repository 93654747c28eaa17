// Times multiplication tables: each line of standard input is a word and a prime, as `group 101`. The word is `group` (the group algebra of Z/128, all
// products given), `matrices` (11 by 11 matrix units), `words` or `commuting` (a quiver with 128 short paths and 64 relations), or `product` (128 by 128
// matrices). It prints the line again with the microseconds that the table, or the product, took, and the number of its basis elements, or rows.
#![tactic(auto)]

ghost use Rattle.std.specs.Prelude.{◌≡◌, ℕ, ◌<◌, ◌≤◌, IfOk, length, slice_index};

use cap_field::Field;
use cap_laws::Table;
use cap_lincat::{LinTable, ProductRow, TableParts};
use cap_matrix::Matrix;
use cap_names::Items;
use cap_quiver::{Quiver, Relation};
use std::alloc::{AllocError, Global};
use std::io;
use std::time::Instant;

/// The order of the cyclic group.
const ORDER: u32 = 128;

/// The size of the matrices whose units are a basis.
const SIZE: u32 = 11;

/// The words of three letters.
const LONG_WORDS: [&[u32]; 8] = [
    &[0, 0, 0],
    &[0, 0, 1],
    &[0, 1, 0],
    &[0, 1, 1],
    &[1, 0, 0],
    &[1, 0, 1],
    &[1, 1, 0],
    &[1, 1, 1],
];

/// Words of one to three letters.
const SHORT_WORDS: [&[u32]; 8] = [
    &[0],
    &[1],
    &[0, 0],
    &[0, 1],
    &[1, 0],
    &[1, 1],
    &[0, 0, 0],
    &[1, 1, 1],
];

/// A row of zeros but for a 1 at this place.
fn element(alloc: Global, width: u32, at: u32) -> Result<Items<u16>, AllocError> {
    let mut row = vec![in alloc; 0u16; width as usize]?;
    if (at as usize) < row.len() {
        row[at as usize] = 1;
    }
    Ok(Items::new(row))
}

/// The parts of a table with one object.
fn with_one_object(
    alloc: Global,
    field: Field,
    count: u32,
    unit: Items<u16>,
    products: Vec<ProductRow>,
) -> Result<TableParts, AllocError> {
    let basis = vec![in alloc; (0u32, 0u32); count as usize]?;
    let mut units = Vec::new(alloc);
    units.push(unit)?;
    Ok(TableParts {
        field,
        objects: 1,
        basis: Items::new(basis),
        units: Items::new(units),
        products: Items::new(products),
    })
}

/// The group algebra of the cyclic group.
fn group(alloc: Global, field: Field) -> Result<TableParts, AllocError> {
    let mut products = Vec::new(alloc);
    for k in 0..ORDER * ORDER {
        let i = k / ORDER;
        let j = k % ORDER;
        let coeffs = element(alloc, ORDER, (i + j) % ORDER)?;
        products.push(ProductRow { i, j, coeffs })?;
    }
    let unit = element(alloc, ORDER, 0)?;
    with_one_object(alloc, field, ORDER, unit, products)
}

/// The algebra of matrices: the unit of row a and column b times that of row b and column c is that of row a and column c.
fn matrices(alloc: Global, field: Field) -> Result<TableParts, AllocError> {
    let count = SIZE * SIZE;
    let mut products = Vec::new(alloc);
    for k in 0..count * SIZE {
        let a = k / count;
        let b = k / SIZE % SIZE;
        let c = k % SIZE;
        let coeffs = element(alloc, count, a * SIZE + c)?;
        products.push(ProductRow {
            i: a * SIZE + b,
            j: b * SIZE + c,
            coeffs,
        })?;
    }
    let mut unit = vec![in alloc; 0u16; count as usize]?;
    for k in 0..unit.len() {
        if k % (SIZE as usize + 1) == 0 {
            unit[k] = 1;
        }
    }
    with_one_object(alloc, field, count, Items::new(unit), products)
}

/// The letters of two words, one after the other.
fn joined(alloc: Global, first: &[u32], second: &[u32]) -> Result<Items<u32>, AllocError> {
    let mut word = Vec::from_slice(alloc, first)?;
    word.extend_from_slice(second)?;
    Ok(Items::new(word))
}

/// The relation u·v = v·u.
fn commute(alloc: Global, minus_one: u16, u: &[u32], v: &[u32]) -> Result<Relation, AllocError> {
    let mut terms = Vec::new(alloc);
    terms.push((1u16, joined(alloc, u, v)?))?;
    terms.push((minus_one, joined(alloc, v, u)?))?;
    Ok(Relation {
        terms: Items::new(terms),
    })
}

/// Two loops at one object and another object alone, with the paths of less than seven arrows; each two of these words commute.
fn quiver(alloc: Global, field: Field, words: &[&[u32]]) -> Result<Option<Quiver>, AllocError> {
    let minus_one = field.neg(1);
    let mut relations = Vec::new(alloc);
    for u in words {
        for v in words {
            relations.push(commute(alloc, minus_one, u, v)?)?;
        }
    }
    let arrows = [(0, 0), (0, 0)].to_vec(alloc)?;
    if !Quiver::fits(field, 2, arrows.as_slice(), relations.as_slice(), 7) {
        return Ok(None);
    }
    Ok(Some(Quiver::new(field, 2, arrows, relations, 7)))
}

/// Prints what was timed.
fn tell(rt: &HostRuntime, line: &str, start: Instant, count: usize) -> io::Result<()> {
    let taken = start.elapsed(rt)?.as_micros();
    println!(rt; "{line} {taken} {count}")
}

/// Times the table of these parts.
fn time_table(rt: &HostRuntime, line: &str, parts: TableParts) -> io::Result<()> {
    let start = Instant::now(rt)?;
    match LinTable::make(rt.alloc(), parts) {
        Ok(table) => {
            let count = if table.objects() > 0 {
                table.hom(0, 0).len()
            } else {
                0
            };
            tell(rt, line, start, count)
        }
        Err(fault) => println!(rt; "{line}: {fault}"),
    }
}

/// Times the table of a quiver.
fn time_quiver(rt: &HostRuntime, line: &str, made: Option<Quiver>) -> io::Result<()> {
    let Some(quiver) = made else {
        return println!(rt; "{line}: no quiver");
    };
    let start = Instant::now(rt)?;
    match quiver.table(rt.alloc()) {
        Ok(table) => tell(rt, line, start, table.count() as usize),
        Err(fault) => println!(rt; "{line}: {fault}"),
    }
}

/// Residues below p.
fn cells(alloc: Global, count: usize, p: u32) -> Result<Vec<u16>, AllocError>
    requires count { count ≤ 16384 }
    requires low { 2 ≤ p }
    requires high { p ≤ 251 }
    ensures { IfOk result (λ v. (length v.items ≡ count) × ((k : ℕ) → slice_index v.items k < p)) }
{
    let mut cells = vec![in alloc; 0u16; count]?;
    for k in 0..count {
        cells[k] = (k * k % p as usize) as u16;
    }
    Ok(cells)
}

/// Times the square of a matrix.
fn time_product(rt: &HostRuntime, line: &str, field: Field) -> io::Result<()> {
    let cells = cells(rt.alloc(), 16384, field.prime())?;
    let m = Matrix::from_cells(field, 128, 128, cells);
    let start = Instant::now(rt)?;
    match m.product(rt.alloc(), &m) {
        Ok(square) => tell(rt, line, start, square.rows() as usize),
        Err(_) => println!(rt; "{line}: no product"),
    }
}

/// Times one line.
fn time_line(rt: &HostRuntime, line: &str) -> io::Result<()> {
    let mut words = line.split_whitespace();
    let kind = words.next().unwrap_or("");
    let prime = words.next().unwrap_or("").parse::<u32>().unwrap_or(0);
    let Some(field) = Field::from_prime(prime) else {
        return println!(rt; "{line}: no field");
    };
    match kind {
        "group" => time_table(rt, line, group(rt.alloc(), field)?),
        "matrices" => time_table(rt, line, matrices(rt.alloc(), field)?),
        "words" => time_quiver(rt, line, quiver(rt.alloc(), field, &LONG_WORDS)?),
        "commuting" => time_quiver(rt, line, quiver(rt.alloc(), field, &SHORT_WORDS)?),
        "product" => time_product(rt, line, field),
        _ => println!(rt; "{line}: no such table"),
    }
}

fn main(rt: HostRuntime) -> io::Result<()> {
    for line in rt.lines(rt.alloc()) {
        let text = line?;
        time_line(&rt, text.as_str())?;
    }
    Ok(())
}
