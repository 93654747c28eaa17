// Literals of objects.
ghost use Rattle.std.specs.Prelude.{◌≡◌};
ghost use Rattle.cap_names.specs.declared.literals.ObjLit.TheVariants.{Dim};
ghost use Rattle.cap_offer.specs.Literals.{IsDimension, dimension_of};
ghost use Rattle.cap_data.specs.declared.data.ObjData.TheVariants.{Dim as datum};

use cap_data::ObjData;
use cap_names::ObjLit;

/// The dimension that a literal is.
pub(crate) fn read_dimension(lit: &ObjLit) -> ObjData
    requires { IsDimension lit.now }
    ensures { result ≡ datum (dimension_of lit.now) }
{
    match lit {
        ObjLit::Dim(n) => ObjData::Dim(*n),
        _ => unreachable!(),
    }
}
