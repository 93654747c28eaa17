// Matrices as morphisms.
ghost use Rattle.std.specs.Prelude.{◌≡◌, ◌<◌, ◌^◌, IfOk, IfErr};
ghost use Rattle.cap_laws.specs.declared.faults.CatFault.TheVariants.{TooLarge as TooLargeFault, NoMemory as no_memory};
ghost use Rattle.cap_matrix.specs.Grid.{Grid, transposed_of};
ghost use Rattle.cap_matrix.specs.Made.{IsMade};
ghost use Rattle.cap_laws.specs.Answers.{Answers, Fits};
ghost use Rattle.cap_vec.specs.Sizes.{IsSizeOf, size_of};

use cap_laws::CatFault;
use cap_matrix::{Matrix, MatrixFault, NoMemory, TooLarge};
use std::alloc::Global;
use std::marker::Model;

/// A matrix as a morphism from its row count to its column count. Contracts see it as the matrix.
#[derive(Drop)]
pub struct VecMor {
    source: u32,
    target: u32,
    matrix: Matrix,
}

impl Model for VecMor {
    ghost use Rattle.std.specs.Prelude.{◌≡◌, IfOk};
    ghost use Rattle.cap_matrix.specs.Grid.{Grid};

    ghost Value = { Grid };

    ghost view = { λ f. f.matrix };

    ghost invariant = { λ f. (f.source ≡ f.matrix.row_count) × (f.target ≡ f.matrix.column_count) };
}

impl VecMor {
    /// The morphism that a matrix is.
    pub fn new(m: Matrix) -> VecMor
        ensures { result ≡ m }
    {
        let source = m.rows();
        let target = m.cols();
        VecMor {
            source,
            target,
            matrix: m,
        }
    }

    /// The matrix of a morphism.
    pub fn matrix(&self) -> &Matrix
        ensures { result.now ≡ self.now }
    {
        &self.matrix
    }

    /// The matrix of a morphism, without a copy.
    pub fn into_matrix(self) -> Matrix
        ensures { result ≡ self }
    {
        let VecMor {
            source: _,
            target: _,
            matrix,
        } = self;
        matrix
    }

    /// The row count.
    pub(crate) fn source(&self) -> &u32
        ensures { result.now ≡ self.now.row_count }
    {
        &self.source
    }

    /// The column count.
    pub(crate) fn target(&self) -> &u32
        ensures { result.now ≡ self.now.column_count }
    {
        &self.target
    }
}

/// The fault of a matrix past the limits.
pub(crate) fn too_large(size: TooLarge) -> CatFault
    ensures value { result ≡ TooLargeFault size.rows size.cols }
    ensures rows { size.rows < 2 ^ 32 }
    ensures cols { size.cols < 2 ^ 32 }
{
    CatFault::TooLarge {
        rows: size.rows,
        cols: size.cols,
    }
}

/// What a call that makes a matrix answers, as the answer of a category.
pub(crate) fn answered(made: Result<Matrix, MatrixFault>) -> Result<VecMor, CatFault>
    ensures { (g : Grid) → IsMade made g → Answers (IsSizeOf g) (λ x. x ≡ g) result }
{
    match made {
        Ok(matrix) => Ok(VecMor::new(matrix)),
        Err(MatrixFault::TooLarge(size)) => Err(too_large(size)),
        Err(MatrixFault::NoMemory) => Err(CatFault::NoMemory),
    }
}

/// A matrix within the limits, or want of memory, as the answer of a category.
pub(crate) fn kept(made: Result<Matrix, NoMemory>) -> Result<VecMor, CatFault>
    ensures answer { (g : Grid) → IfOk made (λ m. m ≡ g) → Answers (IsSizeOf g) (λ x. x ≡ g) result }
    ensures fault { IfErr result (λ e. e ≡ no_memory) }
{
    match made {
        Ok(matrix) => {
            let _ = matrix.cells();
            Ok(VecMor::new(matrix))
        }
        Err(_) => Err(CatFault::NoMemory),
    }
}

/// The transpose of a morphism.
pub(crate) fn transposed(alloc: Global, f: &VecMor) -> Result<VecMor, CatFault>
    ensures answer { Answers (IsSizeOf (transposed_of f.now)) (λ x. x ≡ transposed_of f.now) result }
    ensures fault { IfErr result (λ e. e ≡ no_memory) }
{
    kept(f.matrix().transpose(alloc))
}
