// Images, coimages and unions.
ghost use Rattle.cap_abstract.specs.Images.{ImageFromKernel, CoimageFromImage, UnionFromImage};
ghost use Rattle.cap_laws.specs.Universal.{opposite};

use cap_laws::{Abelian, Preadditive};

/// In an abelian category a kernel of a cokernel is an image; dually, a cokernel of a kernel is a coimage.
pub fn law_image_from_kernel<C: Abelian>()
    ensures law { (c : C) → ImageFromKernel (C.category c) }
    ensures dual { (c : C) → ImageFromKernel (opposite (C.category c)) }
{}

/// In an abelian category an image is a coimage; dually, a coimage is an image.
pub fn law_coimage_from_image<C: Abelian>()
    ensures law { (c : C) → CoimageFromImage (C.category c) }
    ensures dual { (c : C) → CoimageFromImage (opposite (C.category c)) }
{}

/// An image of the morphism out of the coproduct is a union.
pub fn law_union_from_image<C: Preadditive>()
    ensures { (c : C) → UnionFromImage (C.category c) }
{}
