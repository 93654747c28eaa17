// The homomorphism structure of the category of matrices: the coefficients of a matrix are its cells, row after row.
use crate::VecCat;
use crate::morphism::{VecMor, answered, transposed};
use cap_homlaw::HomFp;
use cap_laws::CatFault;
use cap_matrix::{Matrix, fits};
use cap_names::Items;
use std::alloc::Global;

impl HomFp for VecCat {
    ghost use Rattle.cap_vec_hom_laws.specs.Homs.{vec_hom};
    ghost use Rattle.cap_vec_hom_laws.proofs.HomLaws.{vec_has_hom};
    ghost use Rattle.cap_vec.specs.Homs.{vec_hom_meets};

    ghost hom = { λ c. vec_hom c.field };

    ghost hom_meets = { λ c. vec_hom_meets };

    fn dim(&self, a: &u32, b: &u32) -> u32 {
        a.saturating_mul(*b)
    }

    fn nu(&self, alloc: Global, f: &VecMor) -> Result<Items<u16>, CatFault> {
        let cells = Vec::from_slice(alloc, f.matrix().cells())?;
        Ok(Items::new(cells))
    }

    fn back(&self, alloc: Global, a: &u32, b: &u32, row: &[u16]) -> Result<VecMor, CatFault> {
        let (rows, cols) = (*a, *b);
        if !fits(rows, cols) {
            return Err(CatFault::TooLarge { rows, cols });
        }
        let cells = Vec::from_slice(alloc, row)?;
        Ok(VecMor::new(Matrix::from_cells(self.field, rows, cols, cells)))
    }

    fn h(&self, alloc: Global, left: &VecMor, right: &VecMor) -> Result<Matrix, CatFault> {
        let (l, r) = (left.matrix(), right.matrix());
        let _ = l.cells();
        let _ = r.cells();
        let turned = transposed(alloc, left)?;
        let product = answered(turned.matrix().kron(alloc, r))?;
        Ok(product.into_matrix())
    }

    fn generators(&self) -> u32 {
        1
    }

    fn generator(&self, _alloc: Global, _n: u32) -> Result<u32, CatFault> {
        Ok(1)
    }

    ghost is_hom = { λ c. vec_has_hom c.field c.tabled };
}
