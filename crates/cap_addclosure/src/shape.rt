// Whether entries have the numbers of coefficients that a matrix between two lists has.
ghost use Rattle.std.specs.Prelude.{◌≡◌, ◌*◌, ◌≤◌, MatchOption, length};
ghost use Rattle.cap_add_laws.specs.Closure.{AreObjects};
ghost use Rattle.cap_addclosure.specs.Shapes.{HasWidths, IsFirstWrong};

use crate::sizes::width;
use cap_laws::Table;
use cap_names::Items;
use thiserror::Error;

/// Entries are no matrix: their number is wrong, for part 0; else the number, from 1, of the first entry with a wrong number of coefficients.
#[derive(Debug, Clone, Copy, PartialEq, Eq, Error)]
#[error("Shape {part}")]
pub struct Shape {
    pub part: u32,
}

/// The first entry with a wrong number of coefficients, from 0.
pub fn first_wrong<T: Table>(table: &T, a: &[u32], b: &[u32], entries: &[Items<u16>]) -> Option<u32>
    requires from { AreObjects (T.table table.now) a.now }
    requires to { AreObjects (T.table table.now) b.now }
    requires short { length a.now ≤ 4096 }
    requires narrow { length b.now ≤ 4096 }
    requires many { length entries.now ≡ length a.now * length b.now }
    ensures { MatchOption result (HasWidths (T.table table.now) a.now b.now entries.now (length entries.now)) (λ k. IsFirstWrong (T.table table.now) a.now b.now entries.now k) }
{
    for k in 0..entries.len() {
        if entries[k].len() != width(table, a[k / b.len()], b[k % b.len()]) as usize {
            return Some(k as u32);
        }
    }
    None
}
