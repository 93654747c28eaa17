// Each law at a concrete category: the residues modulo a prime, and for abelian categories the category with one morphism between any two objects.
use cap_abstract::{
    law_add_by_subtract, law_coimage_from_image, law_congruent_by_subtract,
    law_direct_sum_from_product, law_equalizer_from_kernel, law_equalizer_from_pullback,
    law_exact_by_kernels, law_exact_by_weak_kernels, law_homology_from_kernel,
    law_identity_from_direct_sum, law_image_from_kernel, law_intersection_from_pullback,
    law_inverse_by_section, law_iso_by_mono_and_epi, law_iso_by_splits, law_kernel_from_equalizer,
    law_kernel_from_pullback, law_kernel_map, law_lift_by_pair, law_mono_by_kernel,
    law_mono_by_pullback, law_mono_by_weak_kernel, law_negate_by_subtract, law_pair_by_lift,
    law_product_from_direct_sum, law_pullback_from_equalizer, law_pullback_from_kernel,
    law_union_from_image, law_weak_kernel_from_kernel, law_zero_from_direct_sum,
};
use cap_laws::examples::{NullCategory, Scalars};

#[test]
fn laws_of_linear_categories_are_taken_by_calls(_rt: HostRuntime) {
    law_product_from_direct_sum::<Scalars>();
    law_direct_sum_from_product::<Scalars>();
    law_pair_by_lift::<Scalars>();
    law_lift_by_pair::<Scalars>();
    law_homology_from_kernel::<Scalars>();
    law_exact_by_kernels::<Scalars>();
    law_exact_by_weak_kernels::<Scalars>();
    law_union_from_image::<Scalars>();
    law_kernel_from_equalizer::<Scalars>();
    law_equalizer_from_kernel::<Scalars>();
    law_weak_kernel_from_kernel::<Scalars>();
    law_kernel_from_pullback::<Scalars>();
    law_pullback_from_kernel::<Scalars>();
    law_pullback_from_equalizer::<Scalars>();
    law_equalizer_from_pullback::<Scalars>();
    law_kernel_map::<Scalars>();
    law_intersection_from_pullback::<Scalars>();
    law_mono_by_kernel::<Scalars>();
    law_mono_by_weak_kernel::<Scalars>();
    law_mono_by_pullback::<Scalars>();
    law_inverse_by_section::<Scalars>();
    law_iso_by_splits::<Scalars>();
    law_negate_by_subtract::<Scalars>();
    law_add_by_subtract::<Scalars>();
    law_congruent_by_subtract::<Scalars>();
    law_identity_from_direct_sum::<Scalars>();
    law_zero_from_direct_sum::<Scalars>();
}

#[test]
fn laws_of_abelian_categories_are_taken_by_calls(_rt: HostRuntime) {
    law_image_from_kernel::<NullCategory>();
    law_coimage_from_image::<NullCategory>();
    law_iso_by_mono_and_epi::<NullCategory>();
}
