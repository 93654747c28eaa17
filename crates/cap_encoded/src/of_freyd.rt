// Relations between lists of table objects, and the morphisms between them, as data.
ghost use Rattle.std.specs.Prelude.{◌≡◌, ◌≤◌, length, IfOk};
ghost use Rattle.cap_add_laws.specs.Closure.{IsMorphismMatrix, joined};
ghost use Rattle.cap_data.specs.Cells.{coefficients};

use crate::Encoding;
use cap_addclosure::{AddCat, AddMor};
use cap_data::{Entries, Limited, MorData, ObjData};
use cap_freyd::{FreydMor, FreydObj};
use cap_freyd_laws::PresentationMor;
use cap_freyd_univ::Univ;
use cap_laws::{Cat, Table};
use cap_names::{Items, NoMemory};
use cap_solve::Solved;
use std::alloc::Global;

/// An equal list of table objects.
pub(crate) fn copied_parts(alloc: Global, parts: &[u32]) -> Result<Limited<u32, 2048>, NoMemory>
    requires { length parts.now ≤ 2048 }
    ensures { IfOk result (λ copy. copy ≡ parts.now) }
{
    let copy = Vec::from_slice(alloc, parts)?;
    Ok(Limited::new(Items::new(copy)))
}

/// Equal entries.
fn copied_lists(alloc: Global, entries: &[Items<u16>]) -> Result<Vec<Items<u16>>, NoMemory>
    ensures { IfOk result (λ copy. copy.items ≡ entries.now) }
{
    let copy = entries.to_vec(alloc)?;
    Ok(copy)
}

/// These entries, which keep the limits of a matrix of combinations, as data.
pub(crate) fn entries_of(lists: Vec<Items<u16>>) -> Entries
    requires many { length lists.items ≤ 4194304 }
    requires few { length (joined lists.items) ≤ 1048576 }
    ensures { result ≡ lists.items }
{
    Entries::new(Items::new(lists))
}

/// The matrix of combinations between copies of these lists with copies of these entries.
pub(crate) fn matrix_between<T: Table>(
    alloc: Global,
    c: &AddCat<T>,
    from: &Limited<u32, 2048>,
    to: &Limited<u32, 2048>,
    entries: &Entries,
) -> Result<AddMor, NoMemory>
    requires { IsMorphismMatrix (T.table c.now.table) (record { from = from.now; to = to.now; entries = entries.now }) }
    ensures { IfOk result (λ f. f ≡ record { from = from.now; to = to.now; entries = entries.now }) }
{
    let xs = Vec::from_slice(alloc, from.as_slice())?;
    let ys = Vec::from_slice(alloc, to.as_slice())?;
    let lists = copied_lists(alloc, entries.as_slice())?;
    Ok(c.known_morphism(c.object(xs), c.object(ys), lists))
}

/// The entries of a matrix of combinations, copied, as data.
fn copied_entries(alloc: Global, f: &AddMor) -> Result<Entries, NoMemory>
    requires rows { length f.now.from ≤ 2048 }
    requires columns { length f.now.to ≤ 2048 }
    ensures { IfOk result (λ entries. entries ≡ f.now.entries) }
{
    let lists = copied_lists(alloc, f.entries())?;
    Ok(entries_of(lists))
}

impl<T: Table + Drop> Encoding for Univ<Solved<AddCat<T>>> {
    type O = ObjData;

    type M = MorData;

    ghost use Rattle.cap_encoded.specs.OfFreyd.{freyd_reading};
    ghost use Rattle.cap_encoded.specs.ReadsFreyd.{freyd_read};

    ghost reading = { λ c. freyd_reading };

    fn read_object(
        &self,
        alloc: Global,
        a: &ObjData,
    ) -> Result<FreydObj<Solved<AddCat<T>>>, NoMemory> {
        match a {
            ObjData::Relation { src, tgt, rho } => {
                let below = self.freyd().below().below();
                let relation = matrix_between(alloc, below, src, tgt, rho)?;
                Ok(self.freyd().object(relation))
            }
            _ => unreachable!(),
        }
    }

    fn write_object(
        &self,
        alloc: Global,
        a: &FreydObj<Solved<AddCat<T>>>,
    ) -> Result<ObjData, NoMemory> {
        let below = self.freyd().below().below();
        let relation = a.relation();
        let src = copied_parts(alloc, below.source(relation).parts())?;
        let tgt = copied_parts(alloc, below.target(relation).parts())?;
        let rho = copied_entries(alloc, relation)?;
        Ok(ObjData::Relation { src, tgt, rho })
    }

    fn read_arrow(
        &self,
        alloc: Global,
        a: &ObjData,
        b: &ObjData,
        m: &MorData,
    ) -> Result<FreydMor<Solved<AddCat<T>>>, NoMemory> {
        match (a, b, m) {
            (
                ObjData::Relation { tgt: xs, .. },
                ObjData::Relation { tgt: ys, .. },
                MorData::Entries(entries),
            ) => {
                let below = self.freyd().below().below();
                let alpha = matrix_between(alloc, below, xs, ys, entries)?;
                let from = self.read_object(alloc, a)?;
                let to = self.read_object(alloc, b)?;
                Ok(self.freyd().known_morphism(from, to, alpha))
            }
            _ => unreachable!(),
        }
    }

    fn write_arrow(
        &self,
        _alloc: Global,
        f: FreydMor<Solved<AddCat<T>>>,
    ) -> Result<MorData, NoMemory> {
        let PresentationMor {
            from: _,
            to: _,
            alpha,
        } = f;
        Ok(MorData::Entries(entries_of(alpha.into_entries())))
    }

    ghost reads = { λ c. freyd_read (T.table c.freyd.below.below.table) };
}
