//! What the commands of a script do, and when a report accounts for its script; what stands before a command: its categories and values by their names, what it lacks, and its arguments.
#![tactic(auto)]

mod lookups;
mod needs;
mod references;

pub use lookups::{answer_of, bind, category_of};
pub use needs::lacking;
pub use references::{arguments, arrow_at, object_at};
