// Matrices over prime fields: one flat buffer in the code, the list of the rows in contracts.
#![tactic(auto)]

ghost use Rattle.std.specs.Prelude.{◌≡◌};

mod build;
mod kernels;
mod matrix;

pub use build::fits;
pub use cap_names::{NoMemory, TooLarge};
pub use matrix::Matrix;
use std::alloc::AllocError;
use thiserror::Error;

/// Why a matrix is not made.
#[derive(Debug, Clone, Copy, PartialEq, Eq, Error)]
pub enum MatrixFault {
    #[error("{0}")]
    TooLarge(TooLarge),
    #[error("out of memory")]
    NoMemory,
}

impl From<NoMemory> for MatrixFault {
    ghost use Rattle.cap_matrix.specs.declared.MatrixFault.TheVariants.{NoMemory};

    ghost from_gives = { λ _ e. e ≡ NoMemory };

    fn from(_e: NoMemory) -> MatrixFault {
        MatrixFault::NoMemory
    }
}

impl From<AllocError> for MatrixFault {
    ghost use Rattle.cap_matrix.specs.declared.MatrixFault.TheVariants.{NoMemory};

    ghost from_gives = { λ _ e. e ≡ NoMemory };

    fn from(_e: AllocError) -> MatrixFault {
        MatrixFault::NoMemory
    }
}
