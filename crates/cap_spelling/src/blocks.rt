// The symbols of tables, quivers and categories.
ghost use Rattle.std.specs.Prelude.{◌≡◌, ◌++◌, ◌∷◌, [], OnOk};
ghost use Rattle.std.specs.List.{flat_map};
ghost use Rattle.cap_grammar.specs.declared.symbol.Symbol.TheVariants as symbol;
ghost use Rattle.cap_spelling.specs.Spelling.{line_symbols, head_symbols, objects_symbols, block_symbols, over_symbols, end_symbols};

use crate::words::{number_symbol, push_combo, push_names, push_sum};
use cap_grammar::{Block, BlockLine, Fixed, Over, Symbol};
use cap_names::Name;
use std::alloc::AllocError;

/// A word and three names.
fn push_named_ends(
    out: &mut Vec<Symbol>,
    word: Fixed,
    name: Name,
    src: Name,
    tgt: Name,
) -> Result<(), AllocError>
    ensures { OnOk result (out.new.items ≡ out.old.items ++ symbol.Fixed word ∷ symbol.Name name ∷ symbol.Name src ∷ symbol.Name tgt ∷ []) }
{
    out.push(Symbol::Fixed(word))?;
    out.push(Symbol::Name(name))?;
    out.push(Symbol::Name(src))?;
    out.push(Symbol::Name(tgt))?;
    Ok(())
}

fn push_line(out: &mut Vec<Symbol>, line: &BlockLine) -> Result<(), AllocError>
    ensures { OnOk result (out.new.items ≡ out.old.items ++ line_symbols line.now) }
{
    match line {
        BlockLine::Basis { name, src, tgt } => {
            push_named_ends(out, Fixed::Basis, *name, *src, *tgt)?;
        }
        BlockLine::Unit { object, combo } => {
            out.push(Symbol::Fixed(Fixed::Unit))?;
            out.push(Symbol::Name(*object))?;
            out.push(Symbol::Fixed(Fixed::Equals))?;
            push_combo(out, combo.as_slice())?;
        }
        BlockLine::Product { left, right, combo } => {
            out.push(Symbol::Fixed(Fixed::Product))?;
            out.push(Symbol::Name(*left))?;
            out.push(Symbol::Name(*right))?;
            out.push(Symbol::Fixed(Fixed::Equals))?;
            push_combo(out, combo.as_slice())?;
        }
        BlockLine::Arrow { name, src, tgt } => {
            push_named_ends(out, Fixed::Arrow, *name, *src, *tgt)?;
        }
        BlockLine::Relation { sum } => {
            out.push(Symbol::Fixed(Fixed::Relation))?;
            push_sum(out, sum.as_slice())?;
        }
    }
    out.push(Symbol::Fixed(Fixed::Newline))?;
    Ok(())
}

fn push_lines(out: &mut Vec<Symbol>, lines: &[BlockLine]) -> Result<(), AllocError>
    ensures { OnOk result (out.new.items ≡ out.old.items ++ flat_map line_symbols lines.now) }
{
    'lines: for line in lines {
        push_line(out, line)?;
    }
    Ok(())
}

fn push_head(
    out: &mut Vec<Symbol>,
    name: Name,
    prime: u64,
    bound: Option<u64>,
) -> Result<(), AllocError>
    ensures { OnOk result (out.new.items ≡ out.old.items ++ head_symbols name prime bound) }
{
    let word = if bound.is_none() {
        Fixed::Table
    } else {
        Fixed::Quiver
    };
    out.push(Symbol::Fixed(word))?;
    out.push(Symbol::Name(name))?;
    out.push(Symbol::Fixed(Fixed::Prime))?;
    out.push(number_symbol(prime))?;
    if let Some(bound) = bound {
        out.push(Symbol::Fixed(Fixed::Bound))?;
        out.push(number_symbol(bound))?;
    }
    out.push(Symbol::Fixed(Fixed::Newline))?;
    Ok(())
}

fn push_objects(out: &mut Vec<Symbol>, names: &[Name]) -> Result<(), AllocError>
    ensures { OnOk result (out.new.items ≡ out.old.items ++ objects_symbols names.now) }
{
    out.push(Symbol::Fixed(Fixed::Objects))?;
    push_names(out, names)?;
    out.push(Symbol::Fixed(Fixed::Newline))?;
    Ok(())
}

/// The line that ends a block or a session.
pub(crate) fn push_end(out: &mut Vec<Symbol>) -> Result<(), AllocError>
    ensures { OnOk result (out.new.items ≡ out.old.items ++ end_symbols) }
{
    out.push(Symbol::Fixed(Fixed::End))?;
    out.push(Symbol::Fixed(Fixed::Newline))?;
    Ok(())
}

pub(crate) fn push_block(out: &mut Vec<Symbol>, block: &Block) -> Result<(), AllocError>
    ensures { OnOk result (out.new.items ≡ out.old.items ++ block_symbols block.now) }
{
    push_head(out, block.name, block.prime, block.bound)?;
    push_objects(out, block.objects.as_slice())?;
    push_lines(out, block.lines.as_slice())?;
    push_end(out)?;
    Ok(())
}

pub(crate) fn push_over(out: &mut Vec<Symbol>, over: Over) -> Result<(), AllocError>
    ensures { OnOk result (out.new.items ≡ out.old.items ++ over_symbols over) }
{
    let (word, symbol) = match over {
        Over::Vec(prime) => (Fixed::Vec, number_symbol(prime)),
        Over::Add(table) => (Fixed::Add, Symbol::Name(table)),
        Over::Freyd(table) => (Fixed::Freyd, Symbol::Name(table)),
        Over::Rep(table) => (Fixed::Rep, Symbol::Name(table)),
    };
    out.push(Symbol::Fixed(word))?;
    out.push(symbol)?;
    Ok(())
}
