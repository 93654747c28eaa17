// How a run ends whose input was read, and one whose input was not.
ghost use Rattle.std.specs.Prelude.{◌≡◌, MatchResult};
ghost use Rattle.cap_top.specs.Reports.{no_report};
ghost use Rattle.cap_top.specs.Run.{IsSaid, IsSilent, IsUnread, status_of};
ghost use Rattle.cap_top.specs.declared.outcome.Status.TheVariants as status;

use crate::judging::{Said, Verdict};
use crate::outcome::{Outcome, Status, no_report};
use cap_io::{ReadEnd, Sink, write_all};
use cap_names::NoMemory;
use std::alloc::Global;

/// How many bytes an input may have.
pub const BYTE_LIMIT: usize = 1_048_576;

/// Writes a text, and answers the status, or WriteFault where the sink fails.
pub fn say<K: Sink>(sink: &mut K, status: Status, text: &[u8]) -> Status
    ensures { IsSaid (K.written sink.old) (K.faults sink.old) (K.written sink.new) (K.faults sink.new) status text.now result }
{
    match write_all(sink, text) {
        Ok(()) => status,
        Err(_) => Status::WriteFault,
    }
}

/// The status that a saying calls for.
fn status_of(said: Said) -> Status
    ensures { result ≡ status_of said }
{
    match said {
        Said::Answered => Status::Ok,
        Said::Rejected => Status::Rejected,
        Said::Refused => Status::BadScript,
    }
}

/// Writes what is said of an input that was read whole, unless memory ran out meanwhile.
pub fn tell<K: Sink>(alloc: Global, sink: &mut K, judged: Result<Verdict, NoMemory>) -> Outcome
    ensures { MatchResult judged
        (λ v. IsSaid (K.written sink.old) (K.faults sink.old) (K.written sink.new) (K.faults sink.new) (status_of v.said) v.text.items result.status × (result.report ≡ v.report))
        (λ _. IsSilent (K.written sink.old) (K.faults sink.old) (K.written sink.new) (K.faults sink.new) status.NoMemory result.status × (result.report ≡ no_report)) }
{
    let (status, report) = match judged {
        Ok(Verdict { said, text, report }) => (say(sink, status_of(said), &text), report),
        Err(_) => (Status::NoMemory, no_report(alloc)),
    };
    Outcome { status, report }
}

/// The end of a run whose input was not read to its end: that it is too long is written, and else nothing.
pub fn unread<K: Sink>(alloc: Global, sink: &mut K, end: ReadEnd) -> Outcome
    ensures told { IsUnread (K.written sink.old) (K.faults sink.old) (K.written sink.new) (K.faults sink.new) end result.status }
    ensures silent { result.report ≡ no_report }
{
    let status = match end {
        ReadEnd::Fault => Status::ReadFault,
        ReadEnd::TooLong => say(sink, Status::TooLong, b"too long\n"),
        ReadEnd::NoMemory => Status::NoMemory,
    };
    let report = no_report(alloc);
    Outcome { status, report }
}
