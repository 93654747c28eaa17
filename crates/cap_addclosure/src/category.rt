// The additive closure as a linear category.
ghost use Rattle.std.specs.Prelude.{◌≡◌, ◌≤◌, ◌<◌, ℕ, [], length, slice_index, slice_index_or, IfOk, IfErr};
ghost use Rattle.cap_add_laws.specs.Closure.{AreObjects, IsMorphismMatrix, joined};
ghost use Rattle.cap_addclosure.specs.Shapes.{IsShapeFault};

use crate::build::zero_matrix;
use crate::compose::product;
use crate::diagonals::{diagonal, direct_sum};
use crate::entries::{copied, copied_matrix, shared};
use crate::linear::{multiple, sum};
use crate::rows::{all_coefficients, matrix_of_row};
use crate::shape::{Shape, first_wrong};
use crate::sizes::dimension;
use crate::two_sided::matrix_of_factors;
use crate::{AddMor, AddObj};
use cap_field::Field;
use cap_homlaw::HomFp;
use cap_laws::{Additive, Cat, CatFault, Preadditive, Sum, Table};
use cap_matrix::Matrix;
use cap_names::Items;
use std::alloc::Global;

/// The additive closure of a table: an additive linear category with a homomorphism structure. Objects are lists of objects of the table,
/// morphisms matrices of combinations, composed by the matrix product.
#[derive(Drop)]
pub struct AddCat<T> {
    pub(crate) table: T,
}

impl<T: Table> AddCat<T> {
    /// The additive closure of a table.
    pub fn new(table: T) -> AddCat<T>
        ensures { result.table ≡ table }
    {
        AddCat { table }
    }

    /// The table that it was made of.
    pub fn table(&self) -> &T
        ensures { result.now ≡ self.now.table }
    {
        &self.table
    }

    /// The list of these objects of the table.
    pub fn object(&self, parts: Vec<u32>) -> AddObj
        requires few { length parts.items ≤ 2048 }
        requires objects { AreObjects (T.table self.now.table) parts.items }
        ensures { result ≡ parts.items }
    {
        AddObj::new(parts)
    }

    /// The matrix from a to b with these entries, row by row, each the coefficients of a combination, at most 1,048,576 in all;
    /// or part 0 where their number is wrong, else the first entry, from 1, with a wrong number of coefficients.
    pub fn morphism(&self, a: AddObj, b: AddObj, entries: Vec<Items<u16>>) -> Result<AddMor, Shape>
        requires from { AreObjects (T.table self.now.table) a }
        requires to { AreObjects (T.table self.now.table) b }
        requires residues { (k c : ℕ) → k < length entries.items → c < length (slice_index_or entries.items k []) → slice_index (slice_index_or entries.items k []) c < (T.table self.now.table).prime }
        requires few { length (joined entries.items) ≤ 1048576 }
        ensures value { IfOk result (λ f. f ≡ record { from = a; to = b; entries = entries.items }) }
        ensures matrix { IfOk result (λ f. IsMorphismMatrix (T.table self.now.table) f) }
        ensures fault { IfErr result (λ e. IsShapeFault (T.table self.now.table) a b entries.items e.part) }
    {
        let (xs, ys) = (a.parts(), b.parts());
        if entries.len() != xs.len() * ys.len() {
            return Err(Shape { part: 0 });
        }
        if let Some(k) = first_wrong(&self.table, xs, ys, &entries) {
            return Err(Shape { part: k + 1 });
        }
        Ok(AddMor::new(a, b, entries))
    }

    /// The matrix from a to b with these entries, row by row, which are known to be one. Nothing is tested.
    pub fn known_morphism(&self, a: AddObj, b: AddObj, entries: Vec<Items<u16>>) -> AddMor
        requires matrix { IsMorphismMatrix (T.table self.now.table) (record { from = a; to = b; entries = entries.items }) }
        requires few { length (joined entries.items) ≤ 1048576 }
        ensures { result ≡ record { from = a; to = b; entries = entries.items } }
    {
        AddMor::new(a, b, entries)
    }
}

impl<T: Table> Cat for AddCat<T> {
    type Obj = AddObj;

    type Mor = AddMor;

    ghost use Rattle.std.specs.Prelude.{◌≡◌};
    ghost use Rattle.cap_add_laws.specs.Closure.{closure_data};
    ghost use Rattle.cap_add_laws.proofs.Linear.{closure-linear};
    ghost use Rattle.cap_addclosure.specs.Sizes.{closure_size};

    ghost category = { λ c. closure_data (T.table c.table) };

    ghost identity_meets = { λ c a s. s ≡ closure_size (T.table c.table) a a };

    ghost compose_meets = { λ c f g s. s ≡ closure_size (T.table c.table) f.from g.to };

    ghost congruent_meets = { λ c f g s. ⊥ };

    fn source<'b>(&self, f: &'b AddMor) -> &'b AddObj {
        f.source()
    }

    fn target<'b>(&self, f: &'b AddMor) -> &'b AddObj {
        f.target()
    }

    fn same_object(&self, a: &AddObj, b: &AddObj) -> bool {
        a.parts() == b.parts()
    }

    fn same_morphism(&self, f: &AddMor, g: &AddMor) -> bool {
        shared(f, g)
    }

    fn copy_object(&self, alloc: Global, a: &AddObj) -> Result<AddObj, CatFault> {
        Ok(copied(alloc, a)?)
    }

    fn copy_morphism(&self, alloc: Global, f: &AddMor) -> Result<AddMor, CatFault> {
        copied_matrix(alloc, f)
    }

    fn identity(&self, alloc: Global, a: &AddObj) -> Result<AddMor, CatFault> {
        diagonal(alloc, &self.table, a, a, 0, 0)
    }

    fn compose(&self, alloc: Global, f: &AddMor, g: &AddMor) -> Result<AddMor, CatFault> {
        product(alloc, &self.table, f, g)
    }

    fn congruent(&self, _alloc: Global, f: &AddMor, g: &AddMor) -> Result<bool, CatFault> {
        Ok(shared(f, g))
    }

    ghost linear = { λ c. closure-linear (T.valid c.table) };
}

impl<T: Table> Preadditive for AddCat<T> {
    ghost use Rattle.cap_addclosure.specs.Sizes.{closure_size};

    ghost zero_meets = { λ c a b s. s ≡ closure_size (T.table c.table) a b };

    ghost add_meets = { λ c f g s. s ≡ closure_size (T.table c.table) f.from f.to };

    ghost scale_meets = { λ c n f s. s ≡ closure_size (T.table c.table) f.from f.to };

    fn field(&self) -> Field {
        self.table.field()
    }

    fn zero(&self, alloc: Global, a: &AddObj, b: &AddObj) -> Result<AddMor, CatFault> {
        zero_matrix(alloc, &self.table, a, b)
    }

    fn add(&self, alloc: Global, f: &AddMor, g: &AddMor) -> Result<AddMor, CatFault> {
        sum(alloc, &self.table, f, g)
    }

    fn scale(&self, alloc: Global, n: u16, f: &AddMor) -> Result<AddMor, CatFault> {
        multiple(alloc, &self.table, n, f)
    }
}

impl<T: Table> Additive for AddCat<T> {
    ghost use Rattle.std.specs.Prelude.{[]};
    ghost use Rattle.cap_add_laws.specs.Closure.{closure_sum};
    ghost use Rattle.cap_add_laws.proofs.DirectSum.{empty-is-zero, sum-is};
    ghost use Rattle.cap_addclosure.specs.Sizes.{IsSizeInSum};

    ghost zero_object_of = { λ c. [] };

    ghost sum_of = { λ c a b. closure_sum (T.table c.table) a b };

    ghost zero_object_meets = { λ c s. ⊥ };

    ghost direct_sum_meets = { λ c a b s. IsSizeInSum (T.table c.table) a b s };

    fn zero_object(&self, alloc: Global) -> Result<AddObj, CatFault> {
        Ok(AddObj::new(Vec::new(alloc)))
    }

    fn direct_sum(&self, alloc: Global, a: &AddObj, b: &AddObj) -> Result<Sum<AddMor>, CatFault> {
        direct_sum(alloc, &self.table, a, b)
    }

    ghost zero_object_is = { λ c. empty-is-zero (T.valid c.table) };

    ghost sum_is = { λ c a b A B. sum-is (T.valid c.table) A B };
}

impl<T: Table> HomFp for AddCat<T> {
    ghost use Rattle.cap_add_laws.specs.Closure.{closure_hom};
    ghost use Rattle.cap_add_laws.proofs.Structure.{closure-is-hom};
    ghost use Rattle.cap_addclosure.specs.Sizes.{closure_meets};

    ghost hom = { λ c. closure_hom (T.table c.table) };

    ghost hom_meets = { λ c. closure_meets (T.table c.table) };

    fn dim(&self, a: &AddObj, b: &AddObj) -> u32 {
        dimension(&self.table, a.parts(), b.parts())
    }

    fn nu(&self, alloc: Global, f: &AddMor) -> Result<Items<u16>, CatFault> {
        f.limits();
        let row = all_coefficients(alloc, f.entries())?;
        Ok(Items::new(row))
    }

    fn back(&self, alloc: Global, a: &AddObj, b: &AddObj, row: &[u16]) -> Result<AddMor, CatFault> {
        matrix_of_row(alloc, &self.table, a, b, row)
    }

    fn h(&self, alloc: Global, left: &AddMor, right: &AddMor) -> Result<Matrix, CatFault> {
        matrix_of_factors(alloc, &self.table, left, right)
    }

    fn generators(&self) -> u32 {
        self.table.objects()
    }

    fn generator(&self, alloc: Global, n: u32) -> Result<AddObj, CatFault> {
        Ok(AddObj::new(vec![in alloc; n]?))
    }

    ghost is_hom = { λ c. closure-is-hom (T.valid c.table) };
}
