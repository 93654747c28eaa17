// The laws. These functions run nothing: a caller learns the law from the contract.
ghost use Rattle.std.specs.Prelude.{◌≡◌, ℕ, true};
ghost use Rattle.cap_field.specs.Residue.{is_tabled};
ghost use Rattle.cap_homlaw.specs.Hom.{IsHom};
ghost use Rattle.cap_vec_laws.specs.Vec.{vec_data};
ghost use Rattle.cap_vec_hom_laws.specs.Homs.{vec_hom, HomIsKronecker};

/// The cells of matrices are a homomorphism structure of the category of matrices.
pub fn law_cells_are_coefficients()
    ensures { (p : ℕ) → is_tabled p ≡ true → IsHom (vec_data p) (vec_hom p) }
{}

/// The matrix of two factors is a Kronecker product.
pub fn law_two_sided_products_of_matrices()
    ensures { (p : ℕ) → is_tabled p ≡ true → HomIsKronecker p }
{}
