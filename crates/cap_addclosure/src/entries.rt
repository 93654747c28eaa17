// Comparing and copying lists and entries.
ghost use Rattle.std.specs.Prelude.{◌≡◌, ◌↔◌, IsTrue, IfOk};
ghost use Rattle.cap_laws.specs.Answers.{Copies};

use crate::build::built;
use crate::{AddMor, AddObj};
use cap_laws::CatFault;
use cap_names::Items;
use std::alloc::{AllocError, Global};

/// Whether two lists of entries are equal.
fn same_entries(x: &[Items<u16>], y: &[Items<u16>]) -> bool
    ensures { IsTrue result ↔ (x.now ≡ y.now) }
{
    x == y
}

/// Whether two matrices are equal.
pub(crate) fn shared(f: &AddMor, g: &AddMor) -> bool
    ensures { IsTrue result ↔ (f.now ≡ g.now) }
{
    f.source().parts() == g.source().parts()
        && f.target().parts() == g.target().parts()
        && same_entries(f.entries(), g.entries())
}

/// An equal list.
pub(crate) fn copied(alloc: Global, a: &AddObj) -> Result<AddObj, AllocError>
    ensures { IfOk result (λ b. b ≡ a.now) }
{
    Ok(AddObj::new(Vec::from_slice(alloc, a.parts())?))
}

/// Equal entries.
fn copied_entries(alloc: Global, entries: &[Items<u16>]) -> Result<Vec<Items<u16>>, AllocError>
    ensures { IfOk result (λ xs. xs.items ≡ entries.now) }
{
    entries.to_vec(alloc)
}

/// An equal matrix.
pub(crate) fn copied_matrix(alloc: Global, f: &AddMor) -> Result<AddMor, CatFault>
    ensures { Copies f.now result }
{
    let entries = copied_entries(alloc, f.entries())?;
    built(alloc, f.source(), f.target(), entries)
}
