//! Keys compared; keys, values and results copied and counted; the objects that a value names.
#![tactic(auto)]

mod cells;
mod copies;
mod keys;
mod mentions;

pub use cells::{key_cells, result_cells, value_cells};
pub use copies::{
    copy_argument, copy_arguments, copy_arrow, copy_key, copy_objects, copy_out, copy_result,
    copy_value,
};
pub use keys::same_key;
pub use mentions::mentioned;
