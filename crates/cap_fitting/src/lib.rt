//! What a script without faults has where each of its commands stands: categories, values of the wanted sorts, and new names.
#![tactic(auto)]

mod laws;

pub use laws::{law_forms_fit, law_free_where_faultless, law_literals_fit, law_sound_where_fits};
