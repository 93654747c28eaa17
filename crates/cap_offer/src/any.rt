// A category of any kind.
ghost use Rattle.std.specs.Prelude.{◌≡◌, IfOk};
ghost use Rattle.cap_ops.specs.declared.plans.Kind.TheVariants.{Mat};
ghost use Rattle.cap_primitives.specs.Given.{from_to};
ghost use Rattle.cap_ops.specs.Told.{IsArrow};

use crate::faults::LitFault;
use crate::matrices::read_matrix;
use crate::objects::read_dimension;
use cap_data::{MorData, ObjData};
use cap_field::Field;
use cap_laws::CatFault;
use cap_names::{MorLit, NoMemory, ObjLit, OpId};
use cap_ops::{Arg, Kind, Objects, Offer, PrimOut};
use cap_vec_offer::VecOffer;
use std::alloc::Global;
use std::marker::Model;

/// The category of a kind.
#[derive(Debug, Drop)]
enum Over {
    Matrices(VecOffer),
}

/// A category of any kind: its primitives, and the literals of its objects and morphisms. Contracts see it as its label.
#[derive(Debug, Drop)]
pub struct AnyCat {
    over: Over,
}

impl Model for AnyCat {
    ghost use Rattle.cap_offer.specs.Labels.{Label, label_of};

    ghost Value = { Label };

    ghost view = { λ c. label_of c.over };
}

impl AnyCat {
    ghost use Rattle.cap_offer.specs.Labels.{vec, any_offer};
    ghost use Rattle.cap_offer.specs.Literals.{HasObjectForm, HasMorphismForm, Gives, object_literal, morphism_literal};

    /// The category of matrices over a field: the kind of additive closures, Freyd categories and functors has none yet.
    pub fn new(_alloc: Global, _kind: Kind, field: Field) -> Result<AnyCat, NoMemory>
        requires { _kind ≡ Mat }
        ensures { IfOk result (λ c. c ≡ vec field) }
    {
        Ok(AnyCat {
            over: Over::Matrices(VecOffer::new(field)),
        })
    }

    /// An equal category.
    pub fn copy(&self, _alloc: Global) -> Result<AnyCat, NoMemory>
        ensures { IfOk result (λ c. c ≡ self.now) }
    {
        match &self.over {
            Over::Matrices(offer) => Ok(AnyCat {
                over: Over::Matrices(VecOffer::new(offer.field())),
            }),
        }
    }

    /// The object that a literal of the kind's form stands for; else its least wrong part, a size past the limits, or the first law that it breaks.
    pub fn object(&self, _alloc: Global, lit: &ObjLit) -> Result<ObjData, LitFault>
        requires { HasObjectForm self.now lit.now }
        ensures gives { Gives (object_literal self.now lit.now) result }
        ensures object { IfOk result (λ x. (any_offer self.now).category.is_object x) }
    {
        match &self.over {
            Over::Matrices(_) => Ok(read_dimension(lit)),
        }
    }

    /// The morphism from a to b that a literal of the kind's form stands for; else its least wrong part, a size past the limits, or the first law that it breaks.
    pub fn morphism(
        &self,
        alloc: Global,
        a: &ObjData,
        b: &ObjData,
        lit: &MorLit,
    ) -> Result<MorData, LitFault>
        requires source { (any_offer self.now).category.is_object a.now }
        requires target { (any_offer self.now).category.is_object b.now }
        requires form { HasMorphismForm self.now lit.now }
        ensures gives { Gives (morphism_literal self.now a.now b.now lit.now) result }
        ensures arrow { IfOk result (λ m. IsArrow (any_offer self.now).category (from_to a.now b.now m)) }
    {
        match &self.over {
            Over::Matrices(offer) => {
                let field = offer.field();
                let _ = field.prime();
                read_matrix(alloc, field, a, b, lit)
            }
        }
    }
}

impl Offer for AnyCat {
    type O = ObjData;

    type M = MorData;

    ghost use Rattle.std.specs.Prelude.{◌≡◌};
    ghost use Rattle.cap_ops.specs.Primitives.{prime_of};
    ghost use Rattle.cap_offer.specs.Labels.{any_offer};
    ghost use Rattle.cap_offer.specs.Members.{any_plain, any_linear, any_means, any_one, any_few};

    ghost offered = { any_offer };

    fn kind(&self) -> Kind {
        match &self.over {
            Over::Matrices(offer) => offer.kind(),
        }
    }

    fn field(&self) -> Field {
        match &self.over {
            Over::Matrices(offer) => offer.field(),
        }
    }

    fn offers(&self, op: OpId) -> Option<u32> {
        match &self.over {
            Over::Matrices(offer) => offer.offers(op),
        }
    }

    fn prim<B: Objects<ObjData>>(
        &self,
        alloc: Global,
        op: OpId,
        args: &[Arg<MorData>],
        objects: &B,
    ) -> Result<PrimOut<ObjData, MorData>, CatFault> {
        match &self.over {
            Over::Matrices(offer) => offer.prim(alloc, op, args, objects),
        }
    }

    ghost plain_ends = { any_plain };

    ghost linear = { any_linear };

    ghost prims_mean = { any_means };

    ghost one_outcome = { any_one };

    ghost few_objects = { any_few };
}
