// Why a call has no value.
ghost use Rattle.std.specs.Prelude.{◌≡◌};

use cap_names::{NoMemory, OpId, TooLarge};
use cap_ops::Mismatch;
use std::alloc::{AllocError, AllocFailed};
use thiserror::Error;

/// Two ends that must be one object are not; the category isn't final; no plan has the operation; a computation met a
/// matrix past the limits; the history is full; or memory ran out.
#[derive(Debug, Clone, Copy, PartialEq, Eq, Error)]
pub enum CallRefusal {
    #[error("{0}")]
    Mismatch(Mismatch),
    #[error("the category isn't final")]
    NotFinal,
    #[error("no plan has the operation")]
    Missing { op: OpId },
    #[error("{0}")]
    TooLarge(TooLarge),
    #[error("the history is full, with {entries} entries and {cells} cells")]
    Full { entries: u32, cells: u64 },
    #[error("out of memory")]
    NoMemory,
}

impl From<NoMemory> for CallRefusal {
    ghost use Rattle.cap_board.specs.declared.refusals.CallRefusal.TheVariants.{NoMemory as no_memory};

    ghost from_gives = { λ _ e. e ≡ no_memory };

    fn from(_e: NoMemory) -> CallRefusal {
        CallRefusal::NoMemory
    }
}

impl From<AllocError> for CallRefusal {
    ghost use Rattle.cap_board.specs.declared.refusals.CallRefusal.TheVariants.{NoMemory as no_memory};

    ghost from_gives = { λ _ e. e ≡ no_memory };

    fn from(_e: AllocError) -> CallRefusal {
        CallRefusal::NoMemory
    }
}

impl<T: Drop> From<AllocFailed<T>> for CallRefusal {
    ghost use Rattle.cap_board.specs.declared.refusals.CallRefusal.TheVariants.{NoMemory as no_memory};

    ghost from_gives = { λ _ e. e ≡ no_memory };

    fn from(_e: AllocFailed<T>) -> CallRefusal {
        CallRefusal::NoMemory
    }
}
