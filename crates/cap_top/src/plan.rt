// `cap plan`: a script from standard input, and the certificates of its categories.
ghost use Rattle.std.specs.Prelude.{◌≡◌, ◌<◌, ◌-◌, ◌^◌, IfOk, List, ℕ, length};
ghost use Rattle.cap_top.specs.Judged.{AreCertified, IsPlanJudged};
ghost use Rattle.cap_top.specs.Run.{Outside, IsPlanRun};

use crate::judging::{Said, Verdict};
use crate::outcome::{Outcome, no_report};
use crate::refusals::{read_built, refused};
use crate::running::{BYTE_LIMIT, tell, unread};
use cap_check::{CheckFault, Checked};
use cap_io::{Sink, Source, read_all};
use cap_names::NoMemory;
use cap_plan_laws::law_certificates_are_accepted;
use cap_registered::certificates;
use std::alloc::Global;

/// The certificates of a script's categories, which are accepted.
fn certified(alloc: Global, script: &Checked) -> Result<Vec<u8>, NoMemory>
    ensures { IfOk result (λ text. AreCertified script.now.prelude text.items) }
{
    let _parts = script.prelude();
    law_certificates_are_accepted();
    certificates(alloc, script)
}

/// What `plan` says of an input.
fn judged(alloc: Global, bytes: &[u8]) -> Result<Verdict, NoMemory>
    requires { length bytes.now < 2 ^ 32 - 1 }
    ensures { IfOk result (λ v. IsPlanJudged bytes.now v.said v.text.items v.report) }
{
    match read_built(alloc, bytes) {
        Ok(script) => Ok(Verdict {
            said: Said::Answered,
            text: certified(alloc, &script)?,
            report: no_report(alloc),
        }),
        Err(CheckFault::Bad(bad)) => refused(alloc, bad),
        Err(CheckFault::NoMemory) => Err(NoMemory),
    }
}

/// Reads a script, and writes the certificate of each of its categories, in order, by what the prelude registers in it; or why the
/// script is refused. It waits for nobody and always returns.
pub fn cap_plan<S: Source, K: Sink>(alloc: Global, source: &mut S, sink: &mut K) -> Outcome
    ensures { IsPlanRun
        (record { left = S.left source.old; read_faults = S.faults source.old; written = K.written sink.old; write_faults = K.faults sink.old })
        (record { left = S.left source.new; read_faults = S.faults source.new; written = K.written sink.new; write_faults = K.faults sink.new })
        result.status result.report }
{
    match read_all(alloc, source, BYTE_LIMIT) {
        Ok(bytes) => tell(alloc, sink, judged(alloc, &bytes)),
        Err(end) => unread(alloc, sink, end),
    }
}
