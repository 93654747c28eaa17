// The faults of a category's calls.
use cap_names::{NoMemory, TooLarge};
use std::alloc::{AllocError, AllocFailed};
use thiserror::Error;

/// A computation met a matrix of this size, past the limits (numbers above 2^32 - 1 as that), or memory ran out.
#[derive(Debug, Clone, Copy, PartialEq, Eq, Error)]
pub enum CatFault {
    #[error("a matrix of {rows} rows and {cols} columns is past the limits")]
    TooLarge { rows: u32, cols: u32 },
    #[error("out of memory")]
    NoMemory,
}

impl From<AllocError> for CatFault {
    ghost use Rattle.std.specs.Prelude.{◌≡◌};
    ghost use Rattle.cap_laws.specs.declared.faults.CatFault.TheVariants.{NoMemory};

    ghost from_gives = { λ _ e. e ≡ NoMemory };

    fn from(_e: AllocError) -> CatFault {
        CatFault::NoMemory
    }
}

impl<T: Drop> From<AllocFailed<T>> for CatFault {
    ghost use Rattle.std.specs.Prelude.{◌≡◌};
    ghost use Rattle.cap_laws.specs.declared.faults.CatFault.TheVariants.{NoMemory};

    ghost from_gives = { λ _ e. e ≡ NoMemory };

    fn from(_e: AllocFailed<T>) -> CatFault {
        CatFault::NoMemory
    }
}

impl From<NoMemory> for CatFault {
    ghost use Rattle.std.specs.Prelude.{◌≡◌};
    ghost use Rattle.cap_laws.specs.declared.faults.CatFault.TheVariants.{NoMemory as no_memory};

    ghost from_gives = { λ _ e. e ≡ no_memory };

    fn from(_e: NoMemory) -> CatFault {
        CatFault::NoMemory
    }
}

impl From<TooLarge> for CatFault {
    ghost use Rattle.std.specs.Prelude.{◌≡◌};
    ghost use Rattle.cap_laws.specs.declared.faults.CatFault.TheVariants.{TooLarge as too_large};

    ghost from_gives = { λ t e. e ≡ too_large t.rows t.cols };

    fn from(size: TooLarge) -> CatFault {
        CatFault::TooLarge {
            rows: size.rows,
            cols: size.cols,
        }
    }
}
