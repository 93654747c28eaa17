//! A text of symbols and its script.

ghost use Rattle.std.specs.Prelude.{◌≡◌, length, IfOk, MatchResult};
ghost use Rattle.cap_grammar.specs.declared.tree.Script.{Script};
ghost use Rattle.cap_grammar.specs.Scripts.{IsTextOf};
ghost use Rattle.cap_lines.specs.Marks.{marks};
ghost use Rattle.cap_parser.specs.declared.text.ScriptFault.TheVariants as fault;
ghost use Rattle.cap_parser.specs.Scripts.{FaultIs};

use crate::scripts::script_of;
use cap_grammar::{Place, Script, Symbol};
use cap_lines::{position, whole_lines};
use cap_reading::ReadError;
use std::alloc::Global;

/// Why a text is no script, or that memory ran out.
#[derive(Debug, Clone, Copy, PartialEq, Eq)]
pub enum ScriptFault {
    /// Memory ran out.
    NoMemory,
    /// How many symbols stand before the first one with which no script goes on.
    Syntax(usize),
}

/// The script of a text, of which these are the symbols with their places, and the place of its end. Each node keeps the places of its symbols; empty lines belong to no node.
pub fn read_script(
    alloc: Global,
    symbols: &[Symbol],
    places: &[Place],
    end: Place,
) -> Result<Script, ScriptFault>
    requires { length symbols.now ≡ length places.now }
    // What is read is a script of this text, with its places.
    ensures found { IfOk result (λ s. IsTextOf s (marks symbols.now places.now) end) }
    // Each script of the text is what is read, unless memory runs out.
    ensures only { (s : Script) → IsTextOf s (marks symbols.now places.now) end → MatchResult result (λ r. r ≡ s) (λ e. e ≡ fault.NoMemory) }
    // A fault is the first.
    ensures fault { MatchResult result (λ _. Unit {0}) (FaultIs symbols.now) }
{
    let Ok((kept, kept_places)) = whole_lines(alloc, symbols, places, end) else {
        return Err(ScriptFault::NoMemory);
    };
    match script_of(alloc, kept.as_slice(), kept_places.as_slice()) {
        Ok(script) => Ok(script),
        Err(ReadError::Memory) => Err(ScriptFault::NoMemory),
        Err(ReadError::Syntax(rest)) => {
            let number = kept.len() - rest.len();
            Err(ScriptFault::Syntax(position(symbols, number)))
        }
    }
}
