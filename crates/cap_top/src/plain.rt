// `cap plain`: a script from standard input, and what it prints.
ghost use Rattle.std.specs.Prelude.{◌≡◌, ◌<◌, ◌-◌, ◌^◌, [], IfOk, List, ℕ, length};
ghost use Rattle.cap_check.specs.Unbuilt.{unbuilt};
ghost use Rattle.cap_session.specs.Reports.{IsPlainReport};
ghost use Rattle.cap_top_text.specs.Text.{report_text};
ghost use Rattle.cap_top.specs.declared.judging.Said.TheVariants.{Answered};
ghost use Rattle.cap_top.specs.Judged.{IsPlainJudged};
ghost use Rattle.cap_top.specs.Run.{Outside, IsPlainRun};

use crate::judging::{Said, Verdict};
use crate::outcome::Outcome;
use crate::refusals::{read_built, refused};
use crate::running::{BYTE_LIMIT, tell, unread};
use cap_check::{CheckFault, Checked};
use cap_io::{Gate, Sink, Source, read_all};
use cap_names::NoMemory;
use cap_session::run_plain;
use cap_top_text::report_text;
use std::alloc::Global;

/// Runs a script without faults whose kinds are built: its report, and the text of it.
fn answered<G: Gate>(alloc: Global, script: &Checked, gate: &G) -> Result<Verdict, NoMemory>
    requires { unbuilt script.now.prelude ≡ [] }
    ensures said { IfOk result (λ v. v.said ≡ Answered) }
    ensures ran { IfOk result (λ v. IsPlainReport script.now v.report) }
    ensures text { IfOk result (λ v. v.text.items ≡ report_text script.now v.report) }
{
    let report = run_plain(alloc, script, gate)?;
    let text = report_text(alloc, script.prelude(), script.sessions(), &report)?;
    let said = Said::Answered;
    Ok(Verdict { said, text, report })
}

/// What `plain` says of an input.
fn judged<G: Gate>(alloc: Global, bytes: &[u8], gate: &G) -> Result<Verdict, NoMemory>
    requires { length bytes.now < 2 ^ 32 - 1 }
    ensures { IfOk result (λ v. IsPlainJudged bytes.now v.said v.text.items v.report) }
{
    match read_built(alloc, bytes) {
        Ok(script) => answered(alloc, &script, gate),
        Err(CheckFault::Bad(bad)) => refused(alloc, bad),
        Err(CheckFault::NoMemory) => Err(NoMemory),
    }
}

/// Reads a script, runs it, and writes what it prints, or why it is refused. Its sessions run one after another and pass the gate:
/// before each command, before each event of a category, and behind each miss. It waits for nobody and always returns.
pub fn cap_plain<S: Source, K: Sink, G: Gate>(
    alloc: Global,
    source: &mut S,
    sink: &mut K,
    gate: &G,
) -> Outcome
    ensures { IsPlainRun
        (record { left = S.left source.old; read_faults = S.faults source.old; written = K.written sink.old; write_faults = K.faults sink.old })
        (record { left = S.left source.new; read_faults = S.faults source.new; written = K.written sink.new; write_faults = K.faults sink.new })
        result.status result.report }
{
    match read_all(alloc, source, BYTE_LIMIT) {
        Ok(bytes) => tell(alloc, sink, judged(alloc, &bytes, gate)),
        Err(end) => unread(alloc, sink, end),
    }
}
