// Why a literal is refused.
use cap_names::{NoMemory, TooLarge};
use std::alloc::{AllocError, AllocFailed};
use thiserror::Error;

/// Why a literal stands for no data: its least wrong part, a matrix past the limits, or the first law that it breaks. Numbers count from 1; part 0 is
/// a literal's matrix of entries, or the path of a map.
#[derive(Debug, Clone, Copy, PartialEq, Eq, Error)]
pub enum LitFault {
    #[error("part {part} of the literal has a wrong size")]
    Shape { part: u32 },
    #[error("the literal is no morphism")]
    NotAMorphism,
    #[error("the unit of object {object} is no identity")]
    NotUnital { object: u32 },
    #[error("the product of basis elements {i} and {j} is not kept")]
    NotAFunctor { i: u32, j: u32 },
    #[error("the square at basis element {i} doesn't commute")]
    NotNatural { i: u32 },
    #[error("{0}")]
    TooLarge(TooLarge),
    #[error("out of memory")]
    NoMemory,
}

impl From<NoMemory> for LitFault {
    ghost use Rattle.std.specs.Prelude.{◌≡◌};
    ghost use Rattle.cap_offer.specs.declared.faults.LitFault.TheVariants.{NoMemory as no_memory};

    ghost from_gives = { λ _ e. e ≡ no_memory };

    fn from(_e: NoMemory) -> LitFault {
        LitFault::NoMemory
    }
}

impl From<AllocError> for LitFault {
    ghost use Rattle.std.specs.Prelude.{◌≡◌};
    ghost use Rattle.cap_offer.specs.declared.faults.LitFault.TheVariants.{NoMemory as no_memory};

    ghost from_gives = { λ _ e. e ≡ no_memory };

    fn from(_e: AllocError) -> LitFault {
        LitFault::NoMemory
    }
}

impl<T: Drop> From<AllocFailed<T>> for LitFault {
    ghost use Rattle.std.specs.Prelude.{◌≡◌};
    ghost use Rattle.cap_offer.specs.declared.faults.LitFault.TheVariants.{NoMemory as no_memory};

    ghost from_gives = { λ _ e. e ≡ no_memory };

    fn from(_e: AllocFailed<T>) -> LitFault {
        LitFault::NoMemory
    }
}
