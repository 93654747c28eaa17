// From a script to bytes.
ghost use Rattle.std.specs.Prelude.{ℕ, List, IfOk};
ghost use Rattle.cap_script.specs.Scripts.{IsParsed};
ghost use Rattle.cap_script.specs.Printed.{IsPrintedAgain};

use cap_grammar::Script;
use cap_names::NoMemory;
use std::alloc::Global;

/// The text of a script: a blank between words, numbers and entries, `; ` between rows, and an LF behind each line.
pub fn print(alloc: Global, script: &Script) -> Result<Vec<u8>, NoMemory>
    // A script that parsing gives is printed as a text of an equal script, up to the places: parsing the text gives that one.
    ensures { (bs : List ℕ) → IsParsed bs script.now → IfOk result (λ v. IsPrintedAgain script.now v.items) }
{
    cap_printer::print(alloc, script)
}
