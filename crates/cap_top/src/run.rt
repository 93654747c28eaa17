// `cap run` and `cap run --log`: a script from standard input on threads, and what it prints.
ghost use Rattle.std.specs.Prelude.{◌≡◌, ◌<◌, ◌-◌, ◌^◌, [], IfOk, List, ℕ, length};
ghost use Rattle.cap_check.specs.Unbuilt.{unbuilt};
ghost use Rattle.cap_session.specs.Reports.{IsRunReport};
ghost use Rattle.cap_top.specs.declared.judging.Said.TheVariants.{Answered};
ghost use Rattle.cap_top.specs.Judged.{IsRunJudged, whole_text};
ghost use Rattle.cap_top.specs.Run.{Outside, IsThreadsRun};

use crate::judging::{Said, Verdict};
use crate::outcome::Outcome;
use crate::refusals::{read_built, refused};
use crate::running::{BYTE_LIMIT, tell, unread};
use cap_check::{CheckFault, Checked};
use cap_data::{MorData, ObjData};
use cap_io::{Gate, Sink, Source, read_all};
use cap_names::NoMemory;
use cap_report::Report;
use cap_session::run_sessions;
use cap_top_log::log_text;
use cap_top_text::report_text;
use std::alloc::Global;
use std::sync::Wait;
use std::thread::Threads;

/// The text of a run, and behind it, where it is asked for, the log.
pub fn text(
    alloc: Global,
    script: &Checked,
    report: &Report<ObjData, MorData>,
    log: bool,
) -> Result<Vec<u8>, NoMemory>
    ensures { IfOk result (λ text. text.items ≡ whole_text log script.now report.now) }
{
    let mut text = report_text(alloc, script.prelude(), script.sessions(), report)?;
    if log {
        text.extend_from_slice(&log_text(alloc, script.prelude(), report)?)?;
    }
    Ok(text)
}

/// Runs a script without faults whose kinds are built: its report, and the text of it.
fn answered<R: Threads + Wait + Sync, G: Gate>(
    rt: &R,
    alloc: Global,
    script: &Checked,
    gate: &G,
    log: bool,
) -> Result<Verdict, NoMemory>
    requires { unbuilt script.now.prelude ≡ [] }
    ensures said { IfOk result (λ v. v.said ≡ Answered) }
    ensures ran { IfOk result (λ v. IsRunReport script.now v.report) }
    ensures text { IfOk result (λ v. v.text.items ≡ whole_text log script.now v.report) }
{
    let report = run_sessions(rt, alloc, script, gate)?;
    let text = text(alloc, script, &report, log)?;
    let said = Said::Answered;
    Ok(Verdict { said, text, report })
}

/// What `run` says of an input.
fn judged<R: Threads + Wait + Sync, G: Gate>(
    rt: &R,
    alloc: Global,
    bytes: &[u8],
    gate: &G,
    log: bool,
) -> Result<Verdict, NoMemory>
    requires { length bytes.now < 2 ^ 32 - 1 }
    ensures { IfOk result (λ v. IsRunJudged log bytes.now v.said v.text.items v.report) }
{
    match read_built(alloc, bytes) {
        Ok(script) => answered(rt, alloc, &script, gate, log),
        Err(CheckFault::Bad(bad)) => refused(alloc, bad),
        Err(CheckFault::NoMemory) => Err(NoMemory),
    }
}

/// Reads a script, runs it, and writes what it prints, with the log where it is asked for; or why it is refused. Each session has a
/// thread of its own where one can be had. They pass the gate before each command, before each event of a category while they have
/// its turn, and behind each miss. Sessions wait for turns.
pub(crate) fn cap_run<R: Threads + Wait + Sync, S: Source, K: Sink, G: Gate>(
    rt: &R,
    alloc: Global,
    source: &mut S,
    sink: &mut K,
    gate: &G,
    log: bool,
) -> Outcome
    ensures { IsThreadsRun log
        (record { left = S.left source.old; read_faults = S.faults source.old; written = K.written sink.old; write_faults = K.faults sink.old })
        (record { left = S.left source.new; read_faults = S.faults source.new; written = K.written sink.new; write_faults = K.faults sink.new })
        result.status result.report }
{
    match read_all(alloc, source, BYTE_LIMIT) {
        Ok(bytes) => tell(alloc, sink, judged(rt, alloc, &bytes, gate, log)),
        Err(end) => unread(alloc, sink, end),
    }
}
