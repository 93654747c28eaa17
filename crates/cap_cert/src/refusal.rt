// Reading the certificates of a text.
use cap_names::BadScript;
use thiserror::Error;

/// Why a text of certificates is not read.
#[derive(Debug, Clone, Copy, PartialEq, Eq, Error)]
pub enum CertsFault {
    /// The text is not one of certificates within the limits: its first fault.
    #[error("{0}")]
    BadScript(BadScript),
    /// Memory ran out.
    #[error("out of memory")]
    NoMemory,
}
