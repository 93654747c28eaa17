//! Reading certificates gives back what writing them wrote, so what is written for plans is accepted.
#![tactic(auto)]

mod laws;

pub use laws::{
    law_accepted_is_said, law_first_lines_stand, law_plans_are_accepted, law_plans_are_writable,
    law_written_certificate_is_read, law_written_certificates_are_read, law_written_text_is_short,
};
