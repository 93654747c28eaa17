//! The textbook laws that derivation rules rest on, in every linear or abelian category. The functions run nothing: their contracts are the laws.
#![tactic(auto)]

mod biproduct;
mod homology;
mod image;
mod kernels;
mod monos;
mod sums;

pub use biproduct::{
    law_direct_sum_from_product, law_lift_by_pair, law_pair_by_lift, law_product_from_direct_sum,
};
pub use homology::{law_exact_by_kernels, law_exact_by_weak_kernels, law_homology_from_kernel};
pub use image::{law_coimage_from_image, law_image_from_kernel, law_union_from_image};
pub use kernels::{
    law_equalizer_from_kernel, law_equalizer_from_pullback, law_intersection_from_pullback,
    law_kernel_from_equalizer, law_kernel_from_pullback, law_kernel_map,
    law_pullback_from_equalizer, law_pullback_from_kernel, law_weak_kernel_from_kernel,
};
pub use monos::{
    law_inverse_by_section, law_iso_by_mono_and_epi, law_iso_by_splits, law_mono_by_kernel,
    law_mono_by_pullback, law_mono_by_weak_kernel,
};
pub use sums::{
    law_add_by_subtract, law_congruent_by_subtract, law_identity_from_direct_sum,
    law_negate_by_subtract, law_zero_from_direct_sum,
};
