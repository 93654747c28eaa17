//! What happens to a category: events with their replies, and what a history of them says.
#![tactic(auto)]

mod adding;
mod cells;
mod copies;
mod entries;
mod held;
mod laws;
mod reading;

pub use adding::{final_since, name_given, objects_brought, registered_by, value_kept};
pub use cells::{event_cells, reply_cells};
pub use copies::{copy_event, copy_reply};
pub use entries::{Entry, Event, Reply, Told};
pub use held::HeldPlan;
pub use laws::{law_one_more_entry, law_refusals_change_nothing};
pub use reading::{Finality, Keeping, Naming};
