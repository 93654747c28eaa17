//! Reading the parts of a command from symbols: references, integers, combinations, sums of paths, matrices, and the literals of objects and morphisms.
#![tactic(auto)]

mod combos;
mod lists;
mod literals;
mod matrices;
mod readers;
mod scalars;
mod tokens;

pub use combos::{combo_of, sum_of};
pub use lists::{list_of, path_of};
pub use literals::{morphism_of, object_of};
pub use matrices::rows_of;
pub use readers::law_parts_are_read;
pub use scalars::{arg_of, int_of, ref_of};
pub use tokens::{
    expect, is, name_of, number_of, operation_of, starts, starts_arg, starts_entry, starts_int,
    starts_name, starts_nought, starts_number,
};
