// The certificates of a prelude.
ghost use Rattle.std.specs.Prelude.{◌≡◌, IfOk};
ghost use Rattle.cap_sound.specs.Weights.{AreRanged};
ghost use Rattle.cap_registered.specs.Registrations.{registered};
ghost use Rattle.cap_registered.specs.Certificates.{IsCertificate, AreCertificates};

use crate::commands::kind_of;
use crate::registering::registered;
use cap_cert::write_cert;
use cap_check::{Checked, CheckedObj};
use cap_grammar::{Item, Placed};
use cap_judge::rule_costs;
use cap_names::{MorLit, Name, NoMemory};
use cap_ops::Kind;
use cap_plan::plan;
use std::alloc::Global;

/// The certificate of the category of this name and kind.
fn certificate(
    alloc: Global,
    parts: &[Placed<Item<CheckedObj, MorLit>>],
    name: &Name,
    kind: Kind,
) -> Result<Vec<u8>, NoMemory>
    requires { AreRanged parts.now }
    ensures { IfOk result (λ text. IsCertificate (registered parts.now name.now kind) text.items) }
{
    let regs = registered(parts, name, kind);
    let plan = plan(&regs, &rule_costs(), kind);
    write_cert(alloc, name, kind, &regs, &plan)
}

/// The certificates of all categories among these parts, one after another.
fn certificates_of(
    alloc: Global,
    parts: &[Placed<Item<CheckedObj, MorLit>>],
) -> Result<Vec<u8>, NoMemory>
    requires { AreRanged parts.now }
    ensures { IfOk result (λ text. AreCertificates parts.now text.items) }
{
    let mut text = Vec::new(alloc);
    'parts: for part in parts {
        if let Item::Category { name, over } = &part.node {
            let one = certificate(alloc, parts, name, kind_of(*over))?;
            text.extend_from_slice(&one)?;
        }
    }
    Ok(text)
}

/// The certificates of all categories of a script, in order: of each the plan of what the prelude registers.
pub fn certificates(alloc: Global, script: &Checked) -> Result<Vec<u8>, NoMemory>
    ensures { IfOk result (λ text. AreCertificates script.now.prelude text.items) }
{
    certificates_of(alloc, script.prelude())
}
