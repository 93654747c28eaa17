// `cap check`: certificates from standard input, and what is said of them.
ghost use Rattle.std.specs.Prelude.{◌≡◌, ◌<◌, ◌-◌, ◌^◌, IfOk, List, ℕ, length};
ghost use Rattle.cap_top.specs.Judged.{said_of, IsCheckJudged};
ghost use Rattle.cap_top.specs.Run.{Outside, IsCheckRun};

use crate::judging::{Said, Verdict};
use crate::outcome::{Outcome, no_report};
use crate::running::{BYTE_LIMIT, tell, unread};
use cap_io::{Sink, Source, read_all};
use cap_judge::{Judgement, judge, judgement_text};
use cap_names::NoMemory;
use std::alloc::Global;

/// What a judgement says.
fn said_of(judgement: &Judgement) -> Said
    ensures { result ≡ said_of judgement.now }
{
    match judgement {
        Judgement::Accepted => Said::Answered,
        Judgement::Rejected { .. } => Said::Rejected,
        Judgement::Refused(_) => Said::Refused,
    }
}

/// What `check` says of an input.
fn judged(alloc: Global, bytes: &[u8]) -> Result<Verdict, NoMemory>
    requires { length bytes.now < 2 ^ 32 - 1 }
    ensures { IfOk result (λ v. IsCheckJudged bytes.now v.said v.text.items v.report) }
{
    let judgement = judge(alloc, bytes)?;
    let text = judgement_text(alloc, &judgement)?;
    Ok(Verdict {
        said: said_of(&judgement),
        text: text.into_bytes(),
        report: no_report(alloc),
    })
}

/// Reads certificates, and writes whether they are accepted, their first false line, or why the text is refused.
/// It waits for nobody and always returns.
pub fn cap_check<S: Source, K: Sink>(alloc: Global, source: &mut S, sink: &mut K) -> Outcome
    ensures { IsCheckRun
        (record { left = S.left source.old; read_faults = S.faults source.old; written = K.written sink.old; write_faults = K.faults sink.old })
        (record { left = S.left source.new; read_faults = S.faults source.new; written = K.written sink.new; write_faults = K.faults sink.new })
        result.status result.report }
{
    match read_all(alloc, source, BYTE_LIMIT) {
        Ok(bytes) => tell(alloc, sink, judged(alloc, &bytes)),
        Err(end) => unread(alloc, sink, end),
    }
}
