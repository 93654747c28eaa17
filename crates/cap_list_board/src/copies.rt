// Copies of answers.
ghost use Rattle.std.specs.Prelude.{◌≡◌, IfOk};

use cap_board::Asked;
use cap_keys::copy_value;
use cap_names::NoMemory;
use cap_ops::Datum;
use std::alloc::Global;

/// An equal answer.
pub(crate) fn copy_answer<M: Datum>(alloc: Global, answer: &Asked<M>) -> Result<Asked<M>, NoMemory>
    ensures { IfOk result (λ a. a ≡ answer.now) }
{
    match answer {
        Asked::Hit(value) => Ok(Asked::Hit(copy_value(alloc, value)?)),
        Asked::Miss(choice) => Ok(Asked::Miss(*choice)),
        Asked::NotFinal => Ok(Asked::NotFinal),
        Asked::Full { entries, cells } => Ok(Asked::Full {
            entries: *entries,
            cells: *cells,
        }),
    }
}
