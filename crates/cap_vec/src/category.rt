// The category of matrices, and its linear structure.
ghost use Rattle.std.specs.Prelude.{◌≡◌, true};
ghost use Rattle.cap_field.specs.Residue.{is_tabled};

use crate::morphism::{VecMor, answered, kept};
use cap_field::Field;
use cap_laws::{Cat, CatFault, Preadditive};
use cap_matrix::Matrix;
use std::alloc::Global;

/// The category of matrices over a prime field: the objects are dimensions, every `u32`, and a morphism from m to n is a matrix of m rows and n columns.
/// A dimension past 2,048 is an object too: a call that meets a matrix of such a size answers `TooLarge`.
#[derive(Debug, Drop)]
pub struct VecCat {
    pub(crate) field: Field,
    ghost tabled: { is_tabled field ≡ true },
}

impl VecCat {
    /// The category of matrices over a field.
    pub fn new(field: Field) -> VecCat
        ensures { result.field ≡ field }
    {
        let _ = field.prime();
        VecCat { field }
    }
}

impl Cat for VecCat {
    type Obj = u32;

    type Mor = VecMor;

    ghost use Rattle.std.specs.Prelude.{◌≡◌};
    ghost use Rattle.cap_matrix.specs.Grid.{unit_of, product_of};
    ghost use Rattle.cap_vec_laws.specs.Vec.{vec_data};
    ghost use Rattle.cap_vec_laws.proofs.Linear.{vec_linear};
    ghost use Rattle.cap_vec.specs.Sizes.{IsSizeOf};

    ghost category = { λ c. vec_data c.field };

    ghost identity_meets = { λ c a s. IsSizeOf (unit_of c.field a) s };

    ghost compose_meets = { λ c f g s. IsSizeOf (product_of f g) s };

    ghost congruent_meets = { λ c f g s. ⊥ };

    fn source<'a>(&self, f: &'a VecMor) -> &'a u32 {
        f.source()
    }

    fn target<'a>(&self, f: &'a VecMor) -> &'a u32 {
        f.target()
    }

    fn same_object(&self, a: &u32, b: &u32) -> bool {
        *a == *b
    }

    fn same_morphism(&self, f: &VecMor, g: &VecMor) -> bool {
        f.matrix().same(g.matrix())
    }

    fn copy_object(&self, _alloc: Global, a: &u32) -> Result<u32, CatFault> {
        Ok(*a)
    }

    fn copy_morphism(&self, alloc: Global, f: &VecMor) -> Result<VecMor, CatFault> {
        kept(f.matrix().copy(alloc))
    }

    fn identity(&self, alloc: Global, a: &u32) -> Result<VecMor, CatFault> {
        answered(Matrix::identity(alloc, self.field, *a))
    }

    fn compose(&self, alloc: Global, f: &VecMor, g: &VecMor) -> Result<VecMor, CatFault> {
        answered(f.matrix().product(alloc, g.matrix()))
    }

    fn congruent(&self, _alloc: Global, f: &VecMor, g: &VecMor) -> Result<bool, CatFault> {
        Ok(f.matrix().same(g.matrix()))
    }

    ghost linear = { λ c. vec_linear c.field c.tabled };
}

impl Preadditive for VecCat {
    ghost use Rattle.cap_matrix.specs.Grid.{zero_of, sum_of, scaled_of};
    ghost use Rattle.cap_vec.specs.Sizes.{IsSizeOf};

    ghost zero_meets = { λ c a b s. IsSizeOf (zero_of c.field a b) s };

    ghost add_meets = { λ c f g s. IsSizeOf (sum_of f g) s };

    ghost scale_meets = { λ c n f s. IsSizeOf (scaled_of n f) s };

    fn field(&self) -> Field {
        self.field
    }

    fn zero(&self, alloc: Global, a: &u32, b: &u32) -> Result<VecMor, CatFault> {
        answered(Matrix::zero(alloc, self.field, *a, *b))
    }

    fn add(&self, alloc: Global, f: &VecMor, g: &VecMor) -> Result<VecMor, CatFault> {
        kept(f.matrix().sum(alloc, g.matrix()))
    }

    fn scale(&self, alloc: Global, n: u16, f: &VecMor) -> Result<VecMor, CatFault> {
        kept(f.matrix().scale(alloc, n))
    }
}
