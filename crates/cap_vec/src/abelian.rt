// Kernels and cokernels by null rows.
ghost use Rattle.std.specs.Prelude.{◌≡◌, true};
ghost use Rattle.cap_field.specs.Residue.{is_tabled};
ghost use Rattle.cap_matrix.specs.Grid.{IsMatrix, transposed_of};
ghost use Rattle.cap_laws.specs.Answers.{Answers};
ghost use Rattle.cap_vec.specs.Members.{kernel_of, cokernel_of};
ghost use Rattle.cap_vec.specs.Sizes.{IsSizeInKernel, IsSizeInCokernel};

use crate::VecCat;
use crate::lifts::{colift, lift};
use crate::morphism::{VecMor, too_large, transposed};
use cap_field::Field;
use cap_laws::{Abelian, CatFault, WeakCokernels, WeakKernels};
use cap_matrix::MatrixFault;
use cap_reduce::null_rows;
use std::alloc::Global;

/// The null rows of a matrix, as a kernel.
pub(crate) fn kernel(alloc: Global, field: Field, f: &VecMor) -> Result<VecMor, CatFault>
    requires { IsMatrix field f.now }
    ensures { (t : is_tabled field ≡ true) → Answers (IsSizeInKernel field t f.now) (λ x. x ≡ kernel_of field t f.now) result }
{
    let m = f.matrix();
    let _ = m.cells();
    match null_rows(alloc, m) {
        Ok(rows) => {
            let _ = rows.cells();
            Ok(VecMor::new(rows))
        }
        Err(MatrixFault::TooLarge(size)) => Err(too_large(size)),
        Err(MatrixFault::NoMemory) => Err(CatFault::NoMemory),
    }
}

/// The transpose of the null rows of the transpose, as a cokernel.
pub(crate) fn cokernel(alloc: Global, field: Field, f: &VecMor) -> Result<VecMor, CatFault>
    requires { IsMatrix field f.now }
    ensures { (t : is_tabled field ≡ true) → Answers (IsSizeInCokernel field t f.now) (λ x. x ≡ cokernel_of field t f.now) result }
{
    let turned = transposed(alloc, f)?;
    let rows = kernel(alloc, field, &turned)?;
    transposed(alloc, &rows)
}

impl WeakKernels for VecCat {
    ghost use Rattle.cap_vec.specs.Members.{kernel_of};
    ghost use Rattle.cap_vec_laws.proofs.Members.{weak_kernel_is};
    ghost use Rattle.cap_vec.specs.Sizes.{IsSizeInKernel};

    ghost weak_kernel_of = { λ c f. kernel_of c.field c.tabled f };

    ghost weak_kernel_meets = { λ c f s. IsSizeInKernel c.field c.tabled f s };

    fn weak_kernel(&self, alloc: Global, f: &VecMor) -> Result<VecMor, CatFault> {
        kernel(alloc, self.field, f)
    }

    ghost weak_kernel_is = { λ c a b f F. weak_kernel_is c.field c.tabled a b f F };
}

impl WeakCokernels for VecCat {
    ghost use Rattle.cap_vec.specs.Members.{cokernel_of};
    ghost use Rattle.cap_vec_laws.proofs.Members.{weak_cokernel_is};
    ghost use Rattle.cap_vec.specs.Sizes.{IsSizeInCokernel};

    ghost weak_cokernel_of = { λ c f. cokernel_of c.field c.tabled f };

    ghost weak_cokernel_meets = { λ c f s. IsSizeInCokernel c.field c.tabled f s };

    fn weak_cokernel(&self, alloc: Global, f: &VecMor) -> Result<VecMor, CatFault> {
        cokernel(alloc, self.field, f)
    }

    ghost weak_cokernel_is = { λ c a b f F. weak_cokernel_is c.field c.tabled a b f F };
}

impl Abelian for VecCat {
    ghost use Rattle.cap_vec.specs.Members.{kernel_of, cokernel_of, lift_of, colift_of};
    ghost use Rattle.cap_vec_laws.proofs.Members.{kernel_is, cokernel_is, lift_is, colift_is};
    ghost use Rattle.cap_vec_laws.proofs.Abelian.{vec_abelian};
    ghost use Rattle.cap_vec.specs.Sizes.{IsSizeInKernel, IsSizeInCokernel, IsSizeInLift, IsSizeInColift};

    ghost kernel_of = { λ c f. kernel_of c.field c.tabled f };

    ghost cokernel_of = { λ c f. cokernel_of c.field c.tabled f };

    ghost lift_of = { λ c t f. lift_of c.field c.tabled t f };

    ghost colift_of = { λ c f t. colift_of c.field c.tabled f t };

    ghost kernel_meets = { λ c f s. IsSizeInKernel c.field c.tabled f s };

    ghost cokernel_meets = { λ c f s. IsSizeInCokernel c.field c.tabled f s };

    ghost lift_meets = { λ c t f s. IsSizeInLift c.field c.tabled t f s };

    ghost colift_meets = { λ c f t s. IsSizeInColift c.field c.tabled f t s };

    fn kernel(&self, alloc: Global, f: &VecMor) -> Result<VecMor, CatFault> {
        kernel(alloc, self.field, f)
    }

    fn cokernel(&self, alloc: Global, f: &VecMor) -> Result<VecMor, CatFault> {
        cokernel(alloc, self.field, f)
    }

    fn lift(&self, alloc: Global, t: &VecMor, b: &VecMor) -> Result<Option<VecMor>, CatFault> {
        lift(alloc, self.field, t, b)
    }

    fn colift(&self, alloc: Global, a: &VecMor, t: &VecMor) -> Result<Option<VecMor>, CatFault> {
        colift(alloc, self.field, a, t)
    }

    ghost kernel_is = { λ c a b f F. kernel_is c.field c.tabled a b f F };

    ghost cokernel_is = { λ c a b f F. cokernel_is c.field c.tabled a b f F };

    ghost lift_is = { λ c x a b t f T F. lift_is c.field c.tabled x a b t f T F };

    ghost colift_is = { λ c a b x f t F T. colift_is c.field c.tabled a b x f t F T };

    ghost abelian = { λ c. vec_abelian c.field c.tabled };
}
