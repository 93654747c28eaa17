//! The category of matrices over a prime field: abelian, with pullbacks and pushouts.
#![tactic(auto)]

mod abelian;
mod category;
mod hom;
mod laws;
mod lifts;
mod morphism;
mod pullbacks;
mod sums;
mod systems;

pub use category::VecCat;
pub use laws::{
    law_kernel_is_null_basis, law_lift_is_row_by_row, law_pullback_is_universal,
    law_pushout_is_universal, law_solution_is_canonical,
};
pub use morphism::VecMor;
