//! The faults of blocks and of literals.
#![tactic(auto)]

mod blocks;
mod literals;
mod marks;
mod names;

pub use blocks::{prime_mark, put_end, put_head, put_int, put_line, put_path};
pub use literals::{put_morphism, put_object};
pub use marks::{Mark, first_fault, put, put_separator, told};
pub use names::{
    Part, has_basis, has_block, has_category, is_quiver, lines_of, objects_of, over_of,
};
