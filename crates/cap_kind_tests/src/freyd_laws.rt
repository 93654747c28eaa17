// Each law at a concrete category: the one with exactly one morphism between any two objects.
use cap_freyd_laws::laws::{
    law_freyd_by_systems, law_freyd_cokernels, law_freyd_images, law_freyd_is_abelian,
    law_freyd_is_additive, law_freyd_is_linear, law_freyd_kernels, law_freyd_lifts,
};
use cap_laws::examples::NullCategory;

#[test]
fn laws_are_taken_by_calls(_rt: HostRuntime) {
    law_freyd_is_linear::<NullCategory>();
    law_freyd_is_additive::<NullCategory>();
    law_freyd_by_systems::<NullCategory>();
    law_freyd_is_abelian::<NullCategory>();
    law_freyd_kernels::<NullCategory>();
    law_freyd_cokernels::<NullCategory>();
    law_freyd_lifts::<NullCategory>();
    law_freyd_images::<NullCategory>();
}
