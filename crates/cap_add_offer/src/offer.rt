// The offer.
ghost use Rattle.std.specs.Prelude.{◌≡◌, IfOk};

use cap_addclosure::AddCat;
use cap_data::{MorData, ObjData};
use cap_encoded::{closure_prim, default_weight};
use cap_field::Field;
use cap_laws::{CatFault, Preadditive};
use cap_lincat::LinTable;
use cap_names::{NoMemory, OpId};
use cap_ops::{Arg, Kind, Objects, Offer, PrimOut};
use cap_solve::Solved;
use std::alloc::Global;
use std::marker::Model;

/// The additive closure of a table, with its primitives on data. Contracts see it as the table.
#[derive(Drop)]
pub struct ListOffer {
    cat: Solved<AddCat<LinTable>>,
}

impl Model for ListOffer {
    ghost use Rattle.cap_lincat.specs.declared.table.LinTable.{LinTable as table};

    ghost Value = { table };

    ghost view = { λ o. o.cat.below.table };
}

impl ListOffer {
    /// The offer over a table.
    pub fn new(table: LinTable) -> ListOffer
        ensures { result ≡ table }
    {
        ListOffer {
            cat: Solved::new(AddCat::new(table)),
        }
    }

    /// An equal offer, over a copy of the table.
    pub fn copy(&self, alloc: Global) -> Result<ListOffer, NoMemory>
        ensures { IfOk result (λ o. o ≡ self.now) }
    {
        let table = self.table().copy(alloc)?;
        Ok(ListOffer::new(table))
    }

    /// The table.
    pub fn table(&self) -> &LinTable
        ensures { result.now ≡ self.now }
    {
        self.cat.below().table()
    }
}

impl Offer for ListOffer {
    type O = ObjData;

    type M = MorData;

    ghost use Rattle.std.specs.Prelude.{◌≡◌};
    ghost use Rattle.cap_ops.specs.Primitives.{prime_of};
    ghost use Rattle.cap_lincat.specs.Tables.{table_in};
    ghost use Rattle.cap_add_offer.specs.Offer.{list_offer};
    ghost use Rattle.cap_add_offer.specs.Members.{list_plain, list_linear, list_means, list_one, list_few};

    ghost offered = { λ o. list_offer (table_in o) };

    fn kind(&self) -> Kind {
        Kind::Add
    }

    fn field(&self) -> Field
        ensures prime { prime_of (list_offer (table_in self.now)) ≡ result }
        ensures value { result ≡ self.now.field }
    {
        self.cat.field()
    }

    fn offers(&self, op: OpId) -> Option<u32> {
        default_weight(Kind::Add, op)
    }

    fn prim<B: Objects<ObjData>>(
        &self,
        alloc: Global,
        op: OpId,
        args: &[Arg<MorData>],
        objects: &B,
    ) -> Result<PrimOut<ObjData, MorData>, CatFault> {
        closure_prim(alloc, &self.cat, op, args, objects)
    }

    ghost plain_ends = { λ o. list_plain (table_in o) o.valid };

    ghost linear = { λ o. list_linear (table_in o) o.valid };

    ghost prims_mean = { λ o. list_means (table_in o) o.valid };

    ghost one_outcome = { λ o. list_one (table_in o) o.valid };

    ghost few_objects = { λ o. list_few (table_in o) o.valid };
}
