// What was told at a seat.
ghost use Rattle.std.specs.Prelude.{◌≡◌, ◌++◌, IfOk, OnOk};
ghost use Rattle.std.specs.List.{flat_map};

use cap_names::{Handle, Items, NoMemory};
use cap_ops::Datum;
use std::alloc::Global;
use std::marker::Model;

/// The objects that were told at a seat, and whether the plan is known there. Contracts see it as these.
#[derive(Drop)]
pub struct Memory<O> {
    pub(crate) known: Vec<Items<(Handle, O)>>,
    pub(crate) knows: bool,
}

impl<O> Model for Memory<O> {
    ghost use Rattle.std.specs.List.{flat_map};
    ghost use Rattle.cap_seat.specs.Memories.{Remembered};

    ghost Value = { Remembered O };

    ghost view = { λ m. record { known = flat_map (λ told. told) m.known.items; knows = m.knows } };
}

/// Puts copies of what was told behind the others.
fn push_copies<O: Datum>(
    alloc: Global,
    copies: &mut Vec<(Handle, O)>,
    told: &[(Handle, O)],
) -> Result<(), NoMemory>
    ensures { OnOk result (copies.new.items ≡ copies.old.items ++ told.now) }
{
    for pair in told {
        copies.push((pair.0, pair.1.copy(alloc)?))?;
    }
    Ok(())
}

/// Copies of all that was told in these chunks.
fn copy_chunks<O: Datum>(
    alloc: Global,
    chunks: &[Items<(Handle, O)>],
) -> Result<Vec<(Handle, O)>, NoMemory>
    ensures { IfOk result (λ copies. copies.items ≡ flat_map (λ told. told) chunks.now) }
{
    let mut copies = Vec::new(alloc);
    for told in chunks {
        push_copies(alloc, &mut copies, told.as_slice())?;
    }
    Ok(copies)
}

impl<O: Datum> Memory<O> {
    /// An equal memory.
    pub fn copy(&self, alloc: Global) -> Result<Memory<O>, NoMemory>
        ensures { IfOk result (λ m. m ≡ self.now) }
    {
        let copies = copy_chunks(alloc, self.known.as_slice())?;
        let mut known = Vec::new(alloc);
        known.push(Items::new(copies))?;
        Ok(Memory {
            known,
            knows: self.knows,
        })
    }
}
