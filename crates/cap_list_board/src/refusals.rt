// Why an object gets no handle.
use thiserror::Error;

/// Each handle is given already; or memory ran out.
#[derive(Debug, Clone, Copy, PartialEq, Eq, Error)]
pub enum DeclareRefusal {
    #[error("no handle is left")]
    NoHandle,
    #[error("out of memory")]
    NoMemory,
}
