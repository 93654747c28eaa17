//! Scripts that are sound: names, sorts and limits.
#![tactic(auto)]

mod building;
mod checked;
mod checking;
mod laws;

pub use building::built;
pub use cap_checked::CheckedObj;
pub use cap_faults::CheckFault;
pub use checked::Checked;
pub use checking::check;
pub use laws::law_form_weights;
