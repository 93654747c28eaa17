//! Why nothing was read.

ghost use Rattle.std.specs.Prelude.{◌≡◌};
ghost use Rattle.cap_reading.specs.declared.fault.ReadError.TheVariants.{Memory};

use std::alloc::{AllocError, AllocFailed};

/// The items from the first one on with which no reading goes on, or that memory ran out.
#[derive(Debug, Drop)]
pub enum ReadError<'a, S> {
    /// Memory ran out.
    Memory,
    /// The items from the first one on with which no reading goes on.
    Syntax(&'a [S]),
}

impl<'a, S> From<AllocError> for ReadError<'a, S> {
    ghost from_gives = { λ _ e. e ≡ Memory };

    fn from(_e: AllocError) -> ReadError<'a, S> {
        ReadError::Memory
    }
}

impl<'a, S, T: Drop> From<AllocFailed<T>> for ReadError<'a, S> {
    ghost from_gives = { λ _ e. e ≡ Memory };

    fn from(_e: AllocFailed<T>) -> ReadError<'a, S> {
        ReadError::Memory
    }
}
