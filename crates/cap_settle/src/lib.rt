//! A primitive's answer with handles for its new objects.
#![tactic(auto)]

mod handles;
mod laws;

pub use handles::settle;
pub use laws::{law_settled_fits, law_settled_tells, law_settled_value};
