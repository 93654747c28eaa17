//! What is said of a text of certificates by the 59 rules: accepted, rejected at a line, or no such text.
#![tactic(auto)]

mod judgement;
mod judging;
mod text;

pub use judgement::Judgement;
pub use judging::{judge, rule_costs};
pub use text::judgement_text;
