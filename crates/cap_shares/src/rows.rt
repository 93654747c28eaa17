// Rows of a session's seats, one at each shared category.
ghost use Rattle.std.specs.Prelude.{◌≡◌, ◌≤◌, map, OnOk, IfOk};
ghost use Rattle.std.specs.List.{All, AllZip};
ghost use Rattle.cap_shares.specs.Shares.{fewer, given};
ghost use Rattle.cap_shares.specs.Rows.{Belongs, RowJoins};

use crate::seats::SessionSeat;
use crate::shared::SharedCategory;
use cap_names::NoMemory;
use std::alloc::Global;

/// A session's seats, one at each category.
pub fn split_row(
    alloc: Global,
    categories: &mut [SharedCategory],
) -> Result<Vec<SessionSeat>, NoMemory>
    requires { All (λ k. 2 ≤ k.shares) categories.old }
    ensures rest { OnOk result (categories.new ≡ map fewer categories.old) }
    ensures row { IfOk result (λ row. row.items ≡ map given categories.old) }
{
    let mut row = Vec::new(alloc);
    'categories: for category in categories.iter_mut() {
        row.push(category.split())?;
    }
    Ok(row)
}

/// Takes a session's seats back, each to its category.
pub fn join_row(categories: &mut [SharedCategory], mut row: Vec<SessionSeat>)
    requires { AllZip Belongs categories.old row.items }
    ensures { RowJoins categories.old row.items categories.new }
{
    'row: while let Some(seat) = row.pop() {
        categories[row.len()].join(seat);
    }
}
