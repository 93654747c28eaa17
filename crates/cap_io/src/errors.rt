// How reading, writing and making a sink can fail.
use thiserror::Error;

/// A call of a source or a sink failed, and has moved no byte.
#[derive(Debug, Clone, Copy, PartialEq, Eq, Error)]
#[error("the call failed")]
pub struct Failed;

/// There is no memory for what was to be made.
#[derive(Debug, Clone, Copy, PartialEq, Eq, Error)]
#[error("out of memory")]
pub struct NoMemory;

/// Why a source was not read to its end.
#[derive(Debug, Clone, Copy, PartialEq, Eq, Error)]
pub enum ReadEnd {
    /// A call of the source failed.
    #[error("the source failed")]
    Fault,
    /// More bytes came than the limit allows.
    #[error("too long")]
    TooLong,
    /// There is no memory for the bytes.
    #[error("out of memory")]
    NoMemory,
}
