//! What is known of a script that stands in some text, and of one that has no fault.
#![tactic(auto)]

mod laws;

pub use laws::{
    law_dimensions, law_every_mark_is_told, law_fits, law_no_number_is_clamped, law_places,
    law_sound_where_free, law_weights,
};
