// Certificates as they were read.
use cap_names::Name;
use cap_ops::{Kind, Plan, Regs};

/// A certificate: the category's name and kind, what is registered, the plan, and the number of its first line.
#[derive(Debug, Clone, Copy)]
pub struct Cert {
    pub name: Name,
    pub kind: Kind,
    pub regs: Regs,
    pub plan: Plan,
    pub first_line: u32,
}

/// Whether no line is false, or else the number of the first that is.
#[derive(Debug, Clone, Copy, PartialEq, Eq)]
pub enum Verdict {
    Yes,
    No { line: u32 },
}
