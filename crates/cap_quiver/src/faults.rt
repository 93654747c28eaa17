// Why a quiver has no table.
use cap_names::NoMemory;
use std::alloc::AllocError;
use thiserror::Error;

/// What is wrong with a quiver: the first relation whose terms are not paths with one source and one target, counted from 1;
/// else that more than 128 paths are shorter than the bound.
#[derive(Debug, Clone, Copy, PartialEq, Eq, Error)]
pub enum BadQuiver {
    #[error("BadRelation {n}")]
    BadRelation { n: u32 },
    #[error("TooManyPaths")]
    TooManyPaths,
}

/// Why no table is made.
#[derive(Debug, Clone, Copy, PartialEq, Eq, Error)]
pub enum QuiverFault {
    #[error("{0}")]
    Bad(BadQuiver),
    #[error("out of memory")]
    NoMemory,
}

impl From<NoMemory> for QuiverFault {
    ghost use Rattle.std.specs.Prelude.{◌≡◌};
    ghost use Rattle.cap_quiver.specs.declared.faults.QuiverFault.TheVariants.{NoMemory};

    ghost from_gives = { λ _ e. e ≡ NoMemory };

    fn from(_e: NoMemory) -> QuiverFault {
        QuiverFault::NoMemory
    }
}

impl From<AllocError> for QuiverFault {
    ghost use Rattle.std.specs.Prelude.{◌≡◌};
    ghost use Rattle.cap_quiver.specs.declared.faults.QuiverFault.TheVariants.{NoMemory};

    ghost from_gives = { λ _ e. e ≡ NoMemory };

    fn from(_e: AllocError) -> QuiverFault {
        QuiverFault::NoMemory
    }
}
