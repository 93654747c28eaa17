// What is said of a text of certificates.
use cap_names::BadScript;

/// What is said of a text of certificates.
#[derive(Debug, Clone, Copy, PartialEq, Eq)]
pub enum Judgement {
    /// No line is false.
    Accepted,
    /// The first false line.
    Rejected { line: u32 },
    /// The text is not one of certificates: its first fault.
    Refused(BadScript),
}
