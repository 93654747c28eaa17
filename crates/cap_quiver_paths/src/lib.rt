//! The paths of a quiver shorter than a bound, their numbers, and relations between them.
#![tactic(auto)]

mod numbering;
mod numbers;
mod relation;
mod relations;
mod terms;
mod walks;

pub use numbering::numbered;
pub use numbers::Numbers;
pub use relation::Relation;
pub use relations::first_bad;
pub use terms::term_numbers;
pub use walks::{Walk, all_paths};
