// Why a text is no script.
ghost use Rattle.std.specs.Prelude.{◌≡◌};
ghost use Rattle.cap_script.specs.declared.fault.ScriptFault.TheVariants as fault;

use cap_names::BadScript;
use std::alloc::AllocError;
use thiserror::Error;

/// Why a text is no script, or that memory ran out.
#[derive(Debug, Clone, Copy, PartialEq, Eq, Error)]
pub enum ScriptFault {
    /// The first fault of the text, with its place.
    #[error("{}", .0)]
    BadScript(BadScript),
    /// Memory ran out.
    #[error("out of memory")]
    NoMemory,
}

impl From<AllocError> for ScriptFault {
    ghost from_gives = { λ _ e. e ≡ fault.NoMemory };

    fn from(_e: AllocError) -> ScriptFault {
        ScriptFault::NoMemory
    }
}
