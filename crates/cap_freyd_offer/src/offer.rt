// The offer.
ghost use Rattle.std.specs.Prelude.{◌≡◌, IfOk};

use cap_addclosure::AddCat;
use cap_data::{MorData, ObjData};
use cap_encoded::{abelian_prim, default_weight};
use cap_field::Field;
use cap_freyd::Freyd;
use cap_freyd_univ::Univ;
use cap_laws::{CatFault, Preadditive};
use cap_lincat::LinTable;
use cap_names::{NoMemory, OpId};
use cap_ops::{Arg, Kind, Objects, Offer, PrimOut};
use cap_solve::Solved;
use std::alloc::Global;
use std::marker::Model;

/// The Freyd category of the additive closure of a table, with its primitives on data. Contracts see it as the table.
#[derive(Drop)]
pub struct FreydOffer {
    cat: Univ<Solved<AddCat<LinTable>>>,
}

impl Model for FreydOffer {
    ghost use Rattle.cap_lincat.specs.declared.table.LinTable.{LinTable as table};

    ghost Value = { table };

    ghost view = { λ o. o.cat.freyd.below.below.table };
}

impl FreydOffer {
    /// The offer over a table.
    pub fn new(table: LinTable) -> FreydOffer
        ensures { result ≡ table }
    {
        FreydOffer {
            cat: Univ::new(Freyd::new(Solved::new(AddCat::new(table)))),
        }
    }

    /// An equal offer, over a copy of the table.
    pub fn copy(&self, alloc: Global) -> Result<FreydOffer, NoMemory>
        ensures { IfOk result (λ o. o ≡ self.now) }
    {
        let table = self.table().copy(alloc)?;
        Ok(FreydOffer::new(table))
    }

    /// The table.
    pub fn table(&self) -> &LinTable
        ensures { result.now ≡ self.now }
    {
        self.cat.freyd().below().below().table()
    }
}

impl Offer for FreydOffer {
    type O = ObjData;

    type M = MorData;

    ghost use Rattle.std.specs.Prelude.{◌≡◌};
    ghost use Rattle.cap_ops.specs.Primitives.{prime_of};
    ghost use Rattle.cap_lincat.specs.Tables.{table_in};
    ghost use Rattle.cap_freyd_offer.specs.Offer.{freyd_offer};
    ghost use Rattle.cap_freyd_offer.specs.Members.{freyd_plain, freyd_linear, freyd_means, freyd_one, freyd_few};

    ghost offered = { λ o. freyd_offer (table_in o) };

    fn kind(&self) -> Kind {
        Kind::Freyd
    }

    fn field(&self) -> Field
        ensures prime { prime_of (freyd_offer (table_in self.now)) ≡ result }
        ensures value { result ≡ self.now.field }
    {
        self.cat.field()
    }

    fn offers(&self, op: OpId) -> Option<u32> {
        default_weight(Kind::Freyd, op)
    }

    fn prim<B: Objects<ObjData>>(
        &self,
        alloc: Global,
        op: OpId,
        args: &[Arg<MorData>],
        objects: &B,
    ) -> Result<PrimOut<ObjData, MorData>, CatFault> {
        abelian_prim(alloc, &self.cat, op, args, objects)
    }

    ghost plain_ends = { λ o. freyd_plain (table_in o) o.valid };

    ghost linear = { λ o. freyd_linear (table_in o) o.valid };

    ghost prims_mean = { λ o. freyd_means (table_in o) o.valid };

    ghost one_outcome = { λ o. freyd_one (table_in o) o.valid };

    ghost few_objects = { λ o. freyd_few (table_in o) o.valid };
}
