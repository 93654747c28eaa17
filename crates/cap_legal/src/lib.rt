//! Which histories of a category are legal, and what holds in them.
#![tactic(auto)]

mod laws;

pub use laws::{
    law_front_is_legal, law_full_is_whole, law_legal_is_good, law_next_is_legal, law_true_may,
    law_true_stays,
};
