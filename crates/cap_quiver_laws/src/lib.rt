//! Quivers with relations: the quotient of their paths is a multiplication table.
#![tactic(auto)]

mod laws;

pub use laws::{
    law_ideal_is_two_sided, law_paths_join, law_quiver_table_is_one, law_quiver_table_is_table,
    law_quotient_is_one, law_quotient_is_table,
};
