// Names as numbers from 0.
ghost use Rattle.std.specs.Prelude.{◌≡◌, ◌++◌, map, IfOk};
ghost use Rattle.std.specs.List.{position};
ghost use Rattle.cap_block_faults.specs.Names.{same};
ghost use Rattle.cap_checked.specs.Checked.{small, number, own_name, basis, first_number};

use cap_grammar::BlockLine;
use cap_names::{Items, Name, NoMemory};
use std::alloc::Global;

fn place(names: &[Name], name: Name) -> Option<usize>
    ensures { result ≡ position (λ other. same other name) names.now }
{
    names.iter().position(|other| *other == name)
}

/// A number of 32 bits. A larger one stands as the largest.
pub fn small(number: u64) -> u32
    ensures { result ≡ small number }
{
    number.min(4_294_967_295) as u32
}

/// How many names stand before this one. One that is not there comes behind all.
pub fn number(names: &[Name], name: Name) -> u32
    ensures { result ≡ number names.now name }
{
    match place(names, name) {
        Some(place) => small(place as u64),
        None => small(names.len() as u64),
    }
}

/// The number of the first name of a path.
pub fn first_number(names: &[Name], path: &[Name]) -> u32
    ensures { result ≡ first_number names.now path.now }
{
    match path.first() {
        Some(name) => number(names, *name),
        None => small(names.len() as u64),
    }
}

/// The numbers of these names, in order.
pub fn numbers(alloc: Global, names: &[Name], path: &[Name]) -> Result<Items<u32>, NoMemory>
    ensures { IfOk result (λ xs. xs ≡ map (number names.now) path.now) }
{
    let mut numbers = Vec::new(alloc);
    'names: for name in path {
        numbers.push(number(names, *name))?;
    }
    Ok(Items::new(numbers))
}

/// The dimensions as numbers of 32 bits.
pub fn dimensions(alloc: Global, tokens: &[u64]) -> Result<Items<u32>, NoMemory>
    ensures { IfOk result (λ xs. xs ≡ map small tokens.now) }
{
    let mut dims = Vec::new(alloc);
    'tokens: for token in tokens {
        dims.push(small(*token))?;
    }
    Ok(Items::new(dims))
}

fn put_own_name(names: &mut Vec<Name>, line: &BlockLine) -> Result<(), NoMemory>
    ensures { IfOk result (λ _. names.new.items ≡ names.old.items ++ own_name line.now) }
{
    match line {
        BlockLine::Basis { name, .. } | BlockLine::Arrow { name, .. } => names.push(*name)?,
        _ => {}
    }
    Ok(())
}

/// The basis elements, or the arrows, among lines, in order.
pub fn basis(alloc: Global, lines: &[BlockLine]) -> Result<Vec<Name>, NoMemory>
    ensures { IfOk result (λ names. names.items ≡ basis lines.now) }
{
    let mut names = Vec::new(alloc);
    'lines: for line in lines {
        put_own_name(&mut names, line)?;
    }
    Ok(names)
}
