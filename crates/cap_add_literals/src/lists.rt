// Literals of lists.
ghost use Rattle.std.specs.Prelude.{◌≡◌, IfOk};
ghost use Rattle.cap_data.specs.declared.data.ObjData.TheVariants.{Parts as list};
ghost use Rattle.cap_lincat.specs.Tables.{table_in};
ghost use Rattle.cap_add_offer.specs.Offer.{list_offer};
ghost use Rattle.cap_offer.specs.Literals.{Gives};
ghost use Rattle.cap_add_literals.specs.Literals.{IsList, list_of, list_literal};

use cap_data::{Limited, ObjData};
use cap_lincat::LinTable;
use cap_names::{Items, NoMemory, ObjLit};
use cap_offer::LitFault;
use std::alloc::Global;

/// The list that a literal is.
fn copied_list(alloc: Global, lit: &ObjLit, _table: &LinTable) -> Result<ObjData, NoMemory>
    requires { IsList _table.now.objects lit.now }
    ensures { IfOk result (λ x. x ≡ list (list_of lit.now)) }
{
    match lit {
        ObjLit::Parts(parts) => {
            let copy = Vec::from_slice(alloc, parts.as_slice())?;
            Ok(ObjData::Parts(Limited::new(Items::new(copy))))
        }
        _ => unreachable!(),
    }
}

/// The list of objects of the table that a literal stands for. Nothing is wrong with one of this form.
pub fn read_list(alloc: Global, table: &LinTable, lit: &ObjLit) -> Result<ObjData, LitFault>
    requires { IsList table.now.objects lit.now }
    ensures gives { Gives (list_literal (list_of lit.now)) result }
    ensures object { IfOk result (λ x. (list_offer (table_in table.now)).category.is_object x) }
{
    Ok(copied_list(alloc, lit, table)?)
}
