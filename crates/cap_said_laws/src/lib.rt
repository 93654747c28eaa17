//! What each command says of an input, with its text and its report, is determined by the input; the status of a run tells which faults came.
#![tactic(auto)]

mod laws;

pub use laws::{
    law_certificates_are_determined, law_check_says_one_thing, law_commands_are_complete,
    law_plain_says_one_thing, law_plan_says_one_thing, law_status_tells_faults,
};
