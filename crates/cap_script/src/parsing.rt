// From bytes to a script.
ghost use Rattle.std.specs.Prelude.{◌≡◌, ◌-◌, ◌<◌, ◌≤◌, ◌^◌, length, slice_index_or, IfOk, IfErr, MatchResult};
ghost use Rattle.cap_grammar.specs.declared.tree.Script.{Script};
ghost use Rattle.cap_symbols.specs.Marks.{place_at};
ghost use Rattle.cap_script.specs.Scripts.{fault_at, end_of, IsParsed, IsCause};

use crate::fault::ScriptFault;
use cap_grammar::{Place, Script};
use cap_names::{BadScript, Reason, TokenFault, line_column};
use cap_parser::read_script;
use cap_symbols::symbols;
use std::alloc::Global;

fn bad(place: Place, reason: Reason) -> ScriptFault
    ensures { result ≡ ScriptFault.BadScript (fault_at place reason) }
{
    ScriptFault::BadScript(BadScript {
        line: place.line,
        column: place.column,
        reason,
    })
}

/// A place of a text, counted in bytes, as line and column.
fn place_of(bytes: &[u8], byte: usize) -> Place
    requires short { length bytes.now < 2 ^ 32 - 1 }
    requires within { byte ≤ length bytes.now }
    ensures { result ≡ place_at bytes.now byte }
{
    let (line, column) = line_column(bytes, byte);
    Place { line, column }
}

/// The place of a symbol, or the end of the text behind the last one.
fn place_before(places: &[Place], number: usize, end: Place) -> Place
    ensures { result ≡ slice_index_or places.now number end }
{
    match places.get(number) {
        Some(place) => *place,
        None => end,
    }
}

/// The script of a text, or the first fault of a text that is none. The script keeps where the tokens of its nodes stand.
pub fn parse(alloc: Global, bytes: &[u8]) -> Result<Script, ScriptFault>
    requires { length bytes.now < 2 ^ 32 - 1 }

    // The text is one of the script that is answered.
    ensures found { IfOk result (IsParsed bytes.now) }

    // A script that the text is one of is answered, unless memory runs out.
    ensures only { (s : Script) → IsParsed bytes.now s → MatchResult result (λ r. r ≡ s) (λ e. e ≡ ScriptFault.NoMemory) }

    // A fault is the first of the text.
    ensures fault { IfErr result (IsCause bytes.now) }
{
    let end = place_of(bytes, bytes.len());
    match symbols(alloc, bytes) {
        Ok((symbols, places)) => match read_script(alloc, &symbols, &places, end) {
            Ok(script) => Ok(script),
            Err(cap_parser::ScriptFault::NoMemory) => Err(ScriptFault::NoMemory),
            Err(cap_parser::ScriptFault::Syntax(before)) => {
                Err(bad(place_before(&places, before, end), Reason::Syntax))
            }
        },
        Err(TokenFault::BadByte(byte)) => Err(bad(place_of(bytes, byte.place), Reason::Token)),
        Err(TokenFault::NoMemory) => Err(ScriptFault::NoMemory),
    }
}
