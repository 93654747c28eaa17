//! What is written as the certificates of a checked script is accepted by the checker of certificates.
#![tactic(auto)]

mod laws;

pub use laws::{
    law_accepted_alone, law_categories_are_few, law_categories_stand,
    law_certificates_are_accepted, law_certificates_are_short,
};
