// How a run ends.
ghost use Rattle.std.specs.Prelude.{◌≡◌};
ghost use Rattle.cap_top.specs.Reports.{no_report};

use cap_data::{MorData, ObjData};
use cap_names::Items;
use cap_report::Report;
use std::alloc::Global;

/// How a run of the program ends. The exit status of the program is its number, from 0 in this order.
#[derive(Debug, Clone, Copy, PartialEq, Eq)]
pub enum Status {
    /// The command's text was written.
    Ok,
    /// A line of a certificate is false.
    Rejected,
    /// The words are none that the program knows.
    Usage,
    /// The source failed.
    ReadFault,
    /// The sink failed.
    WriteFault,
    /// More than 1,048,576 bytes came.
    TooLong,
    /// The input is no script.
    BadScript,
    /// Memory ran out.
    NoMemory,
}

impl Status {
    ghost use Rattle.cap_top.specs.Status.{status_number};

    /// The exit status of the program.
    pub fn number(self) -> u8
        ensures { result ≡ status_number self }
    {
        self as u8
    }
}

/// What a run of the program answers: how it ended, and the report of the script that it ran, which is empty where it ran none.
#[derive(Drop)]
pub struct Outcome {
    pub status: Status,
    pub report: Report<ObjData, MorData>,
}

/// The report where no script was run.
pub fn no_report(alloc: Global) -> Report<ObjData, MorData>
    ensures { result ≡ no_report }
{
    Report {
        histories: Items::new(Vec::new(alloc)),
        traces: Items::new(Vec::new(alloc)),
        plans: Items::new(Vec::new(alloc)),
    }
}
