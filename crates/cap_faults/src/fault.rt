// Why a script is not sound.
ghost use Rattle.std.specs.Prelude.{◌≡◌};
ghost use Rattle.cap_faults.specs.declared.fault.CheckFault.TheVariants as fault;

use cap_names::BadScript;
use std::alloc::AllocError;
use thiserror::Error;

/// Why a script is not sound, or why that isn't known.
#[derive(Debug, Clone, Copy, PartialEq, Eq, Error)]
pub enum CheckFault {
    /// The first fault of the script.
    #[error("{}", .0)]
    Bad(BadScript),
    /// Memory ran out.
    #[error("out of memory")]
    NoMemory,
}

impl From<AllocError> for CheckFault {
    ghost from_gives = { λ _ e. e ≡ fault.NoMemory };

    fn from(_e: AllocError) -> CheckFault {
        CheckFault::NoMemory
    }
}
