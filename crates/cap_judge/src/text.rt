// The text of a judgement.
ghost use Rattle.std.specs.Prelude.{◌≡◌, ◌++◌, OnOk, IfOk, string_bytes, codes};
ghost use Rattle.std.specs.Fmt.{decimal};
ghost use Rattle.cap_names.specs.Reasons.{reason_word};
ghost use Rattle.cap_judge.specs.Judged.{judgement_text};

use super::judgement::Judgement;
use cap_names::BadScript;
use std::alloc::{AllocError, Global};

/// Writes a text and a number at the end of a text.
fn push_labelled(
    alloc: Global,
    out: &mut String,
    label: &str,
    number: u32,
) -> Result<(), AllocError>
    ensures { OnOk result (string_bytes out.new ≡ string_bytes out.old ++ label.now ++ decimal number) }
{
    let digits = number.to_string(alloc)?;
    out.push_str(label)?;
    out.push_str(digits.as_str())?;
    Ok(())
}

/// Writes a refusal at the end of a text.
fn push_refusal(alloc: Global, out: &mut String, bad: &BadScript) -> Result<(), AllocError>
    ensures { OnOk result (string_bytes out.new ≡ string_bytes out.old ++ codes "bad script: line " ++ decimal bad.now.line ++ codes " column " ++ decimal bad.now.column ++ codes " " ++ reason_word bad.now.reason ++ codes "\n") }
{
    push_labelled(alloc, out, "bad script: line ", bad.line)?;
    push_labelled(alloc, out, " column ", bad.column)?;
    out.push_str(" ")?;
    out.push_str(bad.reason.word())?;
    out.push_str("\n")?;
    Ok(())
}

/// The line that is written for a judgement.
pub fn judgement_text(alloc: Global, judgement: &Judgement) -> Result<String, AllocError>
    ensures { IfOk result (λ text. string_bytes text ≡ judgement_text judgement.now) }
{
    let mut text = String::new(alloc);
    match judgement {
        Judgement::Accepted => text.push_str("accepted\n")?,
        Judgement::Rejected { line } => {
            push_labelled(alloc, &mut text, "rejected: line ", *line)?;
            text.push_str("\n")?;
        }
        Judgement::Refused(bad) => push_refusal(alloc, &mut text, bad)?,
    }
    Ok(text)
}
