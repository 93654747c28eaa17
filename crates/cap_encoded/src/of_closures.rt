// Lists of table objects, and the matrices of combinations between them, as data.
use crate::Encoding;
use crate::of_freyd::{copied_parts, entries_of, matrix_between};
use cap_addclosure::{AddCat, AddMor, AddObj};
use cap_data::{MorData, ObjData};
use cap_laws::Table;
use cap_names::NoMemory;
use cap_solve::Solved;
use std::alloc::Global;

impl<T: Table + Drop> Encoding for Solved<AddCat<T>> {
    type O = ObjData;

    type M = MorData;

    ghost use Rattle.cap_encoded.specs.OfClosures.{closure_reading};
    ghost use Rattle.cap_encoded.specs.ReadsClosures.{closure_read};

    ghost reading = { λ c. closure_reading };

    fn read_object(&self, alloc: Global, a: &ObjData) -> Result<AddObj, NoMemory> {
        match a {
            ObjData::Parts(parts) => {
                let copy = Vec::from_slice(alloc, parts.as_slice())?;
                Ok(self.below().object(copy))
            }
            _ => unreachable!(),
        }
    }

    fn write_object(&self, alloc: Global, a: &AddObj) -> Result<ObjData, NoMemory> {
        let parts = copied_parts(alloc, a.parts())?;
        Ok(ObjData::Parts(parts))
    }

    fn read_arrow(
        &self,
        alloc: Global,
        a: &ObjData,
        b: &ObjData,
        m: &MorData,
    ) -> Result<AddMor, NoMemory> {
        match (a, b, m) {
            (ObjData::Parts(xs), ObjData::Parts(ys), MorData::Entries(entries)) => {
                matrix_between(alloc, self.below(), xs, ys, entries)
            }
            _ => unreachable!(),
        }
    }

    fn write_arrow(&self, _alloc: Global, f: AddMor) -> Result<MorData, NoMemory> {
        Ok(MorData::Entries(entries_of(f.into_entries())))
    }

    ghost reads = { λ c. closure_read (T.table c.below.table) };
}
