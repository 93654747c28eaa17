// One object, whose morphisms are the residues: the combinations of the table whose only basis element is its unit.
ghost use Rattle.std.specs.Prelude.{◌≡◌, ℕ, ◌<◌, true, [], ◌∷◌};
ghost use Rattle.cap_field.specs.Residue.{is_tabled};
ghost use Rattle.cap_laws.specs.Scalars.{scalar, value_of, unit_at};

use crate::{Cat, CatFault, Preadditive, Table, WeakCokernels, WeakKernels};
use cap_field::Field;
use std::alloc::Global;
use std::marker::Model;

/// A residue as a morphism of the one object, seen as a combination.
#[derive(Debug, Drop)]
pub struct Scalar {
    end: u32,
    value: u16,
}

impl Model for Scalar {
    ghost use Rattle.std.specs.Prelude.{◌≡◌};
    ghost use Rattle.cap_laws.specs.Table.{Combination};
    ghost use Rattle.cap_laws.specs.Scalars.{scalar};

    ghost Value = { Combination };

    ghost view = { λ s. scalar s.value };

    ghost invariant = { λ s. s.end ≡ 0 };
}

impl Scalar {
    pub fn new(value: u16) -> Scalar
        ensures { result ≡ scalar value }
    {
        Scalar { end: 0, value }
    }

    pub fn value(&self) -> u16
        ensures { result ≡ value_of self.now }
    {
        self.value
    }
}

#[derive(Drop)]
pub struct Scalars {
    field: Field,
    basis: [u32; 1],
    one: [u16; 1],
    ghost tabled: { is_tabled field ≡ true },
    ghost basis_is: { basis ≡ 0 ∷ [] },
    ghost one_is: { one ≡ 1 ∷ [] },
}

impl Scalars {
    pub fn new(field: Field) -> Scalars
        ensures { result.field ≡ field }
    {
        let _prime = field.prime();
        Scalars {
            field,
            basis: [0],
            one: [1],
        }
    }
}

impl Table for Scalars {
    ghost use Rattle.cap_laws.specs.Scalars.{scalar_table, scalar_is_table};

    ghost table = { λ t. scalar_table t.field };

    fn field(&self) -> Field {
        self.field
    }

    fn objects(&self) -> u32 {
        1
    }

    fn hom(&self, _x: u32, _y: u32) -> &[u32] {
        &self.basis
    }

    fn ends(&self, _basis: u32) -> (u32, u32) {
        (0, 0)
    }

    fn unit(&self, _x: u32) -> &[u16] {
        &self.one
    }

    fn product(&self, _i: u32, _j: u32) -> &[u16] {
        &self.one
    }

    ghost valid = { λ t. scalar_is_table t.field t.tabled };
}

impl Cat for Scalars {
    type Obj = u32;

    type Mor = Scalar;

    ghost use Rattle.std.specs.Prelude.{◌≡◌};
    ghost use Rattle.cap_laws.specs.Answers.{Size, numbers};
    ghost use Rattle.cap_laws.specs.Scalars.{scalar_data, scalar_linear};

    ghost category = { λ c. scalar_data c.field };

    ghost identity_meets = { λ c a s. s ≡ numbers 1 1 };

    ghost compose_meets = { λ c f g s. s ≡ numbers 1 1 };

    ghost congruent_meets = { λ c f g s. ⊥ };

    fn source<'a>(&self, f: &'a Scalar) -> &'a u32 {
        &f.end
    }

    fn target<'a>(&self, f: &'a Scalar) -> &'a u32 {
        &f.end
    }

    fn same_object(&self, a: &u32, b: &u32) -> bool {
        *a == *b
    }

    fn same_morphism(&self, f: &Scalar, g: &Scalar) -> bool {
        f.value == g.value
    }

    fn copy_object(&self, _alloc: Global, a: &u32) -> Result<u32, CatFault> {
        Ok(*a)
    }

    fn copy_morphism(&self, _alloc: Global, f: &Scalar) -> Result<Scalar, CatFault> {
        Ok(Scalar::new(f.value))
    }

    fn identity(&self, _alloc: Global, _a: &u32) -> Result<Scalar, CatFault> {
        Ok(Scalar::new(1))
    }

    fn compose(&self, _alloc: Global, f: &Scalar, g: &Scalar) -> Result<Scalar, CatFault> {
        Ok(Scalar::new(self.field.mul(f.value, g.value)))
    }

    fn congruent(&self, _alloc: Global, f: &Scalar, g: &Scalar) -> Result<bool, CatFault> {
        Ok(f.value == g.value)
    }

    ghost linear = { λ c. scalar_linear c.field c.tabled };
}

impl Preadditive for Scalars {
    ghost use Rattle.std.specs.Prelude.{◌≡◌};
    ghost use Rattle.cap_laws.specs.Answers.{Size, numbers};

    ghost zero_meets = { λ c a b s. s ≡ numbers 1 1 };

    ghost add_meets = { λ c f g s. s ≡ numbers 1 1 };

    ghost scale_meets = { λ c n f s. s ≡ numbers 1 1 };

    fn field(&self) -> Field {
        self.field
    }

    fn zero(&self, _alloc: Global, _a: &u32, _b: &u32) -> Result<Scalar, CatFault> {
        Ok(Scalar::new(0))
    }

    fn add(&self, _alloc: Global, f: &Scalar, g: &Scalar) -> Result<Scalar, CatFault> {
        Ok(Scalar::new(self.field.add(f.value, g.value)))
    }

    fn scale(&self, _alloc: Global, n: u16, f: &Scalar) -> Result<Scalar, CatFault> {
        Ok(Scalar::new(self.field.mul(n, f.value)))
    }
}

/// 1 at 0, and 0 elsewhere.
fn unit_at_zero(value: u16) -> u16
    ensures { result ≡ unit_at value }
{
    if value == 0 { 1 } else { 0 }
}

impl WeakKernels for Scalars {
    ghost use Rattle.std.specs.Prelude.{◌≡◌};
    ghost use Rattle.cap_laws.specs.Answers.{Size, numbers};
    ghost use Rattle.cap_laws.specs.Scalars.{weak_of, scalar_weak_kernel};

    ghost weak_kernel_of = { λ c f. weak_of f };

    ghost weak_kernel_meets = { λ c f s. s ≡ numbers 1 1 };

    fn weak_kernel(&self, _alloc: Global, f: &Scalar) -> Result<Scalar, CatFault> {
        Ok(Scalar::new(unit_at_zero(f.value)))
    }

    ghost weak_kernel_is = { λ c a b f F. scalar_weak_kernel c.field c.tabled a b f F };
}

impl WeakCokernels for Scalars {
    ghost use Rattle.std.specs.Prelude.{◌≡◌};
    ghost use Rattle.cap_laws.specs.Answers.{Size, numbers};
    ghost use Rattle.cap_laws.specs.Scalars.{weak_of, scalar_weak_cokernel};

    ghost weak_cokernel_of = { λ c f. weak_of f };

    ghost weak_cokernel_meets = { λ c f s. s ≡ numbers 1 1 };

    fn weak_cokernel(&self, _alloc: Global, f: &Scalar) -> Result<Scalar, CatFault> {
        Ok(Scalar::new(unit_at_zero(f.value)))
    }

    ghost weak_cokernel_is = { λ c a b f F. scalar_weak_cokernel c.field c.tabled a b f F };
}
