// The program: its words, and what they ask for.
ghost use Rattle.std.specs.Prelude.{◌≡◌, ◌↔◌, ◌∷◌, [], IsTrue, List, ℕ, map, string_bytes};
ghost use Rattle.cap_top.specs.Words.{IsProgramRun};
ghost use Rattle.cap_top.specs.Run.{Outside};

use crate::check::cap_check;
use crate::outcome::{Outcome, Status, no_report};
use crate::plain::cap_plain;
use crate::plan::cap_plan;
use crate::run::cap_run;
use crate::running::say;
use cap_io::{Gate, Sink, Source};
use std::alloc::Global;
use std::sync::Wait;
use std::thread::Threads;

/// What the program writes where it does not know the words.
const USAGE: &[u8] = b"usage: cap run | run --log | plain | plan | check | demo N\n";

/// Whether the words are this one alone.
fn ask_for(wanted: &str, words: &[String]) -> bool
    ensures { IsTrue result ↔ (map string_bytes words.now ≡ wanted.now ∷ []) }
{
    match words {
        [word] => word.as_str() == wanted,
        _ => false,
    }
}

/// Whether the word is this one.
fn is_word(word: &String, wanted: &str) -> bool
    ensures { IsTrue result ↔ (string_bytes word.now ≡ wanted.now) }
{
    word.as_str() == wanted
}

/// Whether the words are these two.
fn ask_for_both(first: &str, second: &str, words: &[String]) -> bool
    ensures { IsTrue result ↔ (map string_bytes words.now ≡ first.now ∷ second.now ∷ []) }
{
    match words {
        [word, next] => is_word(word, first) && is_word(next, second),
        _ => false,
    }
}

/// All that the program does. The words are `run`, `run --log`, `plain`, `plan` and `check` so far: for all others it writes the
/// usage line. Under `run` sessions wait for turns; under all other words it waits for nobody and always returns.
pub fn cap<R: Threads + Wait + Sync, S: Source, K: Sink, G: Gate>(
    rt: &R,
    alloc: Global,
    words: &[String],
    source: &mut S,
    sink: &mut K,
    gate: &G,
) -> Outcome
    ensures { IsProgramRun (map string_bytes words.now)
        (record { left = S.left source.old; read_faults = S.faults source.old; written = K.written sink.old; write_faults = K.faults sink.old })
        (record { left = S.left source.new; read_faults = S.faults source.new; written = K.written sink.new; write_faults = K.faults sink.new })
        result.status result.report }
{
    if ask_for("run", words) {
        cap_run(rt, alloc, source, sink, gate, false)
    } else if ask_for_both("run", "--log", words) {
        cap_run(rt, alloc, source, sink, gate, true)
    } else if ask_for("plain", words) {
        cap_plain(alloc, source, sink, gate)
    } else if ask_for("plan", words) {
        cap_plan(alloc, source, sink)
    } else if ask_for("check", words) {
        cap_check(alloc, source, sink)
    } else {
        let status = say(sink, Status::Usage, USAGE);
        Outcome {
            status,
            report: no_report(alloc),
        }
    }
}
