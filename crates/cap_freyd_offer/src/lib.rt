//! The offer of the Freyd category of the additive closure of a table, over data, with all its primitives.
#![tactic(auto)]

mod laws;
mod offer;

pub use laws::{
    law_offer_canonical, law_offer_morphisms, law_offer_objects, law_offer_of_presentations,
    law_offer_rules_hold,
};
pub use offer::FreydOffer;
