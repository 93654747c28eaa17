//! Categories of every kind: what they offer, and literals of their objects and morphisms.
#![tactic(auto)]

mod any;
mod faults;
mod laws;
mod matrices;
mod objects;

pub use any::AnyCat;
pub use faults::LitFault;
pub use laws::{law_any_canonical, law_any_of_label, law_any_rules_hold, law_literals_are_one};
pub use matrices::has_size;
