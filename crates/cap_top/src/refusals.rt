// Scripts from bytes, and why they are refused.
ghost use Rattle.std.specs.Prelude.{◌≡◌, ◌<◌, ◌-◌, ◌^◌, [], IfOk, IfErr, length};
ghost use Rattle.cap_check.specs.Unbuilt.{unbuilt};
ghost use Rattle.cap_top.specs.declared.judging.Said.TheVariants.{Refused};
ghost use Rattle.cap_top.specs.Refusals.{IsSoundText, IsRefusal, IsNotRun, refusal_text};
ghost use Rattle.cap_top.specs.Reports.{no_report};

use crate::judging::{Said, Verdict};
use crate::outcome::no_report;
use cap_check::{CheckFault, Checked, built, check};
use cap_judge::{Judgement, judgement_text};
use cap_names::{BadScript, NoMemory};
use cap_script::{ScriptFault, parse};
use std::alloc::{AllocError, Global};

/// The checked form of a script, or the first fault of its tokens, its grammar, or its names, sorts and limits.
fn read_script(alloc: Global, bytes: &[u8]) -> Result<Checked, CheckFault>
    requires { length bytes.now < 2 ^ 32 - 1 }
    ensures sound { IfOk result (λ form. IsSoundText bytes.now form) }
    ensures refused { IfErr result (IsRefusal bytes.now) }
{
    match parse(alloc, bytes) {
        Ok(script) => check(alloc, script),
        Err(ScriptFault::BadScript(bad)) => Err(CheckFault::Bad(bad)),
        Err(ScriptFault::NoMemory) => Err(CheckFault::NoMemory),
    }
}

/// The same for a script that can be run: where it has no fault, the first block or category that can't be run yet is told.
pub fn read_built(alloc: Global, bytes: &[u8]) -> Result<Checked, CheckFault>
    requires { length bytes.now < 2 ^ 32 - 1 }
    ensures sound { IfOk result (λ form. IsSoundText bytes.now form) }
    ensures built { IfOk result (λ form. unbuilt form.prelude ≡ []) }
    ensures refused { IfErr result (IsNotRun bytes.now) }
{
    let script = read_script(alloc, bytes)?;
    match built(&script) {
        Ok(()) => Ok(script),
        Err(bad) => Err(CheckFault::Bad(bad)),
    }
}

/// The line of a refusal, with its place and reason.
fn refusal_text(alloc: Global, bad: BadScript) -> Result<Vec<u8>, AllocError>
    ensures { IfOk result (λ text. text.items ≡ refusal_text bad) }
{
    Ok(judgement_text(alloc, &Judgement::Refused(bad))?.into_bytes())
}

/// What is said of a text that is refused for this reason.
pub fn refused(alloc: Global, bad: BadScript) -> Result<Verdict, NoMemory>
    ensures said { IfOk result (λ v. v.said ≡ Refused) }
    ensures text { IfOk result (λ v. v.text.items ≡ refusal_text bad) }
    ensures silent { IfOk result (λ v. v.report ≡ no_report) }
{
    Ok(Verdict {
        said: Said::Refused,
        text: refusal_text(alloc, bad)?,
        report: no_report(alloc),
    })
}
