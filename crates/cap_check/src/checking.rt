// The third pass over a script.
ghost use Rattle.std.specs.Prelude.{◌≡◌, [], IfOk, IfErr};
ghost use Rattle.cap_faults.specs.Scripts.{script_faults, IsSound, Tells};
ghost use Rattle.cap_checked.specs.Checked.{checked_of};
ghost use Rattle.cap_sound.specs.Given.{IsGiven};

use crate::checked::Checked;
use cap_checked::checked;
use cap_faults::{CheckFault, faultless};
use cap_grammar::Script;
use std::alloc::Global;

/// The checked form of a script that was parsed, or its first fault of names, sorts and limits.
pub fn check(alloc: Global, script: Script) -> Result<Checked, CheckFault>
    // The grammar gives the script for some text, of which it keeps the places.
    requires given { IsGiven script }

    // What is answered is the checked form of the script, which has no fault.
    ensures sound { IfOk result (λ c. (script_faults script ≡ []) × (c ≡ checked_of script)) }

    // A fault is the first of the script.
    ensures refused { IfErr result (Tells (script_faults script)) }

    // A script without faults is refused only where memory runs out.
    ensures only { IsSound script → IfErr result (λ e. e ≡ CheckFault.NoMemory) }
{
    faultless(alloc, &script)?;
    match checked(alloc, script) {
        Ok(form) => Ok(Checked::new(form)),
        Err(_) => Err(CheckFault::NoMemory),
    }
}
