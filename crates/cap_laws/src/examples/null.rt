// Objects are numbers, and there is exactly one morphism, zero, between any two. It is abelian.
ghost use Rattle.std.specs.Prelude.{◌≡◌, ◌≤◌, ◌*◌, true};
ghost use Rattle.cap_field.specs.Residue.{is_tabled};
ghost use Rattle.cap_laws.specs.Answers.{Answers};
ghost use Rattle.cap_laws.specs.NullCategory.{null, null_size};

use crate::{
    Abelian, Additive, Cat, CatFault, Lifts, Preadditive, Sum, System, WeakCokernels, WeakKernels,
};
use cap_field::Field;
use cap_matrix_limits::keeps;
use cap_names::Items;
use std::alloc::Global;

/// The morphism between two objects, counted as a matrix with so many rows and columns of morphisms without coefficients.
#[derive(Debug, Drop)]
pub struct Null {
    pub from: u32,
    pub to: u32,
}

#[derive(Drop)]
pub struct NullCategory {
    pub field: Field,
    ghost tabled: { is_tabled field ≡ true },
}

impl NullCategory {
    pub fn new(field: Field) -> NullCategory
        ensures { result.field ≡ field }
    {
        let _prime = field.prime();
        NullCategory { field }
    }
}

fn checked(rows: u32, cols: u32) -> Result<Null, CatFault>
    ensures { Answers (λ s. s ≡ null_size rows cols) (λ x. x ≡ null rows cols) result }
{
    if !keeps(rows, cols, 0) {
        return Err(CatFault::TooLarge { rows, cols });
    }
    Ok(Null {
        from: rows,
        to: cols,
    })
}

impl Cat for NullCategory {
    type Obj = u32;

    type Mor = Null;

    ghost use Rattle.std.specs.Prelude.{◌≡◌};
    ghost use Rattle.cap_laws.specs.NullCategory.{null_data, null_size, null_linear};

    ghost category = { λ c. null_data c.field };

    ghost identity_meets = { λ c a s. s ≡ null_size a a };

    ghost compose_meets = { λ c f g s. s ≡ null_size f.from g.to };

    ghost congruent_meets = { λ c f g s. ⊥ };

    fn source<'a>(&self, f: &'a Null) -> &'a u32 {
        &f.from
    }

    fn target<'a>(&self, f: &'a Null) -> &'a u32 {
        &f.to
    }

    fn same_object(&self, a: &u32, b: &u32) -> bool {
        *a == *b
    }

    fn same_morphism(&self, f: &Null, g: &Null) -> bool {
        f.from == g.from && f.to == g.to
    }

    fn copy_object(&self, _alloc: Global, a: &u32) -> Result<u32, CatFault> {
        Ok(*a)
    }

    fn copy_morphism(&self, _alloc: Global, f: &Null) -> Result<Null, CatFault> {
        Ok(Null {
            from: f.from,
            to: f.to,
        })
    }

    fn identity(&self, _alloc: Global, a: &u32) -> Result<Null, CatFault> {
        checked(*a, *a)
    }

    fn compose(&self, _alloc: Global, f: &Null, g: &Null) -> Result<Null, CatFault> {
        checked(f.from, g.to)
    }

    fn congruent(&self, _alloc: Global, f: &Null, g: &Null) -> Result<bool, CatFault> {
        Ok(f.from == g.from && f.to == g.to)
    }

    ghost linear = { λ c. null_linear c.field c.tabled };
}

impl Preadditive for NullCategory {
    ghost use Rattle.std.specs.Prelude.{◌≡◌};
    ghost use Rattle.cap_laws.specs.NullCategory.{null_size};

    ghost zero_meets = { λ c a b s. s ≡ null_size a b };

    ghost add_meets = { λ c f g s. s ≡ null_size f.from f.to };

    ghost scale_meets = { λ c n f s. s ≡ null_size f.from f.to };

    fn field(&self) -> Field {
        self.field
    }

    fn zero(&self, _alloc: Global, a: &u32, b: &u32) -> Result<Null, CatFault> {
        checked(*a, *b)
    }

    fn add(&self, _alloc: Global, f: &Null, _g: &Null) -> Result<Null, CatFault> {
        checked(f.from, f.to)
    }

    fn scale(&self, _alloc: Global, _n: u16, f: &Null) -> Result<Null, CatFault> {
        checked(f.from, f.to)
    }
}

impl Additive for NullCategory {
    ghost use Rattle.std.specs.Prelude.{◌≡◌, ◌⊎◌};
    ghost use Rattle.cap_laws.specs.NullCategory.{null, null_size, null_zero, null_sum};

    ghost zero_object_of = { λ c. 0 };

    ghost sum_of = { λ c a b. record { i1 = null a 0; i2 = null b 0; p1 = null 0 a; p2 = null 0 b } };

    ghost zero_object_meets = { λ c s. ⊥ };

    ghost direct_sum_meets = { λ c a b s. ⊥ };

    fn zero_object(&self, _alloc: Global) -> Result<u32, CatFault> {
        Ok(0)
    }

    fn direct_sum(&self, _alloc: Global, a: &u32, b: &u32) -> Result<Sum<Null>, CatFault> {
        Ok(Sum {
            i1: Null { from: *a, to: 0 },
            i2: Null { from: *b, to: 0 },
            p1: Null { from: 0, to: *a },
            p2: Null { from: 0, to: *b },
        })
    }

    ghost zero_object_is = { λ c. null_zero c.field 0 };

    ghost sum_is = { λ c a b h k. null_sum c.field 0 a b };
}

impl Lifts for NullCategory {
    ghost use Rattle.std.specs.Prelude.{Some, map};
    ghost use Rattle.cap_laws.specs.NullCategory.{between, null_solves};

    ghost solution_of = { λ c s. Some (map between s.unknowns) };

    ghost system_meets = { λ c s z. ⊥ };

    fn solve_system(
        &self,
        alloc: Global,
        s: &System<u32, Null>,
    ) -> Result<Option<Items<Null>>, CatFault> {
        let mut solution = Vec::new(alloc);
        for &(from, to) in s.unknowns.as_slice() {
            solution.push(Null { from, to })?;
        }
        Ok(Some(Items::new(solution)))
    }

    ghost solves = { λ c s S. null_solves c.field s S };
}

impl WeakKernels for NullCategory {
    ghost use Rattle.cap_laws.specs.NullCategory.{null, null_weak_kernel};

    ghost weak_kernel_of = { λ c f. null 0 f.from };

    ghost weak_kernel_meets = { λ c f s. ⊥ };

    fn weak_kernel(&self, _alloc: Global, f: &Null) -> Result<Null, CatFault> {
        Ok(Null {
            from: 0,
            to: f.from,
        })
    }

    ghost weak_kernel_is = { λ c a b f F. null_weak_kernel c.field a b f F };
}

impl WeakCokernels for NullCategory {
    ghost use Rattle.cap_laws.specs.NullCategory.{null, null_weak_cokernel};

    ghost weak_cokernel_of = { λ c f. null f.to 0 };

    ghost weak_cokernel_meets = { λ c f s. ⊥ };

    fn weak_cokernel(&self, _alloc: Global, f: &Null) -> Result<Null, CatFault> {
        Ok(Null { from: f.to, to: 0 })
    }

    ghost weak_cokernel_is = { λ c a b f F. null_weak_cokernel c.field a b f F };
}

impl Abelian for NullCategory {
    ghost use Rattle.std.specs.Prelude.{◌≡◌, Some};
    ghost use Rattle.cap_laws.specs.NullCategory.{null, null_size, null_kernel, null_cokernel, null_lift, null_colift, null_abelian};

    ghost kernel_of = { λ c f. null 0 f.from };

    ghost cokernel_of = { λ c f. null f.to 0 };

    ghost lift_of = { λ c t f. Some (null t.from f.from) };

    ghost colift_of = { λ c f t. Some (null f.to t.to) };

    ghost kernel_meets = { λ c f s. ⊥ };

    ghost cokernel_meets = { λ c f s. ⊥ };

    ghost lift_meets = { λ c t f s. s ≡ null_size t.from f.from };

    ghost colift_meets = { λ c f t s. s ≡ null_size f.to t.to };

    fn kernel(&self, alloc: Global, f: &Null) -> Result<Null, CatFault> {
        self.weak_kernel(alloc, f)
    }

    fn cokernel(&self, alloc: Global, f: &Null) -> Result<Null, CatFault> {
        self.weak_cokernel(alloc, f)
    }

    fn lift(&self, _alloc: Global, t: &Null, b: &Null) -> Result<Option<Null>, CatFault> {
        Ok(Some(checked(t.from, b.from)?))
    }

    fn colift(&self, _alloc: Global, a: &Null, t: &Null) -> Result<Option<Null>, CatFault> {
        Ok(Some(checked(a.to, t.to)?))
    }

    ghost kernel_is = { λ c a b f F. null_kernel c.field a b f F };

    ghost cokernel_is = { λ c a b f F. null_cokernel c.field a b f F };

    ghost lift_is = { λ c x a b t f T F. null_lift c.field x a b t f T F };

    ghost colift_is = { λ c a b x f t F T. null_colift c.field a b x f t F T };

    ghost abelian = { λ c. null_abelian c.field };
}
