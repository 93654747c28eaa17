// The text of a script.
ghost use Rattle.std.specs.Prelude.{◌≡◌, List, map, IfOk};
ghost use Rattle.cap_grammar.specs.Scripts.{Mark, symbols, IsScript};
ghost use Rattle.cap_spelling.specs.Again.{plain_zero};
ghost use Rattle.cap_printer.specs.Texts.{text_of};
ghost use Rattle.cap_printer.specs.Printed.{HasText, IsPrinted};

use crate::texts::push_text;
use cap_grammar::{Fixed, Script, Symbol};
use cap_names::NoMemory;
use cap_spelling::symbols_of;
use std::alloc::Global;

fn text_of(alloc: Global, symbols: &[Symbol]) -> Result<Vec<u8>, NoMemory>
    ensures { IfOk result (λ v. v.items ≡ text_of symbols.now) }
{
    let mut out = Vec::new(alloc);
    let mut before = Symbol::Fixed(Fixed::Newline);
    'symbols: for symbol in symbols {
        push_text(alloc, &mut out, &before, symbol)?;
        before = *symbol;
    }
    Ok(out)
}

/// The text of a script: a blank between words, numbers and entries, `; ` between rows, and an LF behind each line.
pub fn print(alloc: Global, script: &Script) -> Result<Vec<u8>, NoMemory>
    // A tree that reading gives is printed as a text of it, up to the places that it keeps.
    ensures text { HasText script.now → IfOk result (λ v. IsPrinted script.now v.items) }
    // All its texts are printed alike: their symbols in order, with `0` for a number 0.
    ensures form { IfOk result (λ v. (marks : List Mark) → IsScript script.now marks → v.items ≡ text_of (map plain_zero (symbols marks))) }
{
    let symbols = symbols_of(alloc, script)?;
    text_of(alloc, symbols.as_slice())
}
