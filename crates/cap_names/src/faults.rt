// Faults that many crates share.
use std::alloc::{AllocError, AllocFailed};
use thiserror::Error;

/// A matrix would have more than 2,048 rows or columns, or more than 1,048,576 cells: its size.
#[derive(Debug, Clone, Copy, PartialEq, Eq, Error)]
#[error("a matrix of {rows} rows and {cols} columns is past the limits")]
pub struct TooLarge {
    pub rows: u32,
    pub cols: u32,
}

/// Memory ran out.
#[derive(Debug, Clone, Copy, PartialEq, Eq, Error)]
#[error("out of memory")]
pub struct NoMemory;

impl From<AllocError> for NoMemory {
    fn from(_e: AllocError) -> NoMemory {
        NoMemory
    }
}

impl<T: Drop> From<AllocFailed<T>> for NoMemory {
    fn from(_e: AllocFailed<T>) -> NoMemory {
        NoMemory
    }
}
