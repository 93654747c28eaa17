// What a command says of a whole input.
use cap_data::{MorData, ObjData};
use cap_report::Report;

/// What a command says of its whole input.
#[derive(Debug, Clone, Copy, PartialEq, Eq)]
pub enum Said {
    /// It is answered.
    Answered,
    /// A line of it is false.
    Rejected,
    /// It is not of the form that the command asks for.
    Refused,
}

/// What a command says of its whole input, its text, and the report of the script that it ran.
#[derive(Drop)]
pub struct Verdict {
    pub said: Said,
    pub text: Vec<u8>,
    pub report: Report<ObjData, MorData>,
}
