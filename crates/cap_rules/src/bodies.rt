// The bodies of the rules as constants. Variables count from 0: the parameters, and then the answers of the steps.
use crate::codes::{BodyCode, Code};
use cap_ops::operations::{
    ADD, COEQUALIZER, COIMAGE, COKERNEL, COKERNEL_COLIFT, COLIFT, COMPOSE, COPAIR, COPRODUCT,
    DIRECT_SUM, EQUALIZER, IDENTITY, IMAGE, INVERSE, IS_CONGRUENT, IS_EPI, IS_MONO, IS_SPLIT_EPI,
    IS_SPLIT_MONO, IS_ZERO, KERNEL, KERNEL_LIFT, LIFT, NEGATE, PAIR, PRODUCT, PULLBACK, PUSHOUT,
    RETRACTION, SCALE, SECTION, SUBTRACT, WEAK_COKERNEL, WEAK_KERNEL, ZERO, ZERO_OBJECT,
};

const NEGATE_BY_SCALE: [Code; 2] = [Code::MinusOne, Code::Call2(SCALE, 1, 0)];

const SUBTRACT_BY_ADD: [Code; 2] = [Code::Call1(NEGATE, 1), Code::Call2(ADD, 0, 2)];

const ADD_BY_SUBTRACT: [Code; 2] = [Code::Call1(NEGATE, 1), Code::Call2(SUBTRACT, 0, 2)];

const NEGATE_BY_SUBTRACT: [Code; 4] = [
    Code::Src(0),
    Code::Tgt(0),
    Code::Call2(ZERO, 1, 2),
    Code::Call2(SUBTRACT, 3, 0),
];

const ZERO_BY_DIRECT_SUM: [Code; 4] = [
    Code::Call2(DIRECT_SUM, 0, 1),
    Code::Part(2, 1),
    Code::Part(2, 4),
    Code::Call2(COMPOSE, 3, 4),
];

const IS_ZERO_BY_IS_CONGRUENT: [Code; 4] = [
    Code::Src(0),
    Code::Tgt(0),
    Code::Call2(ZERO, 1, 2),
    Code::Call2(IS_CONGRUENT, 0, 3),
];

const IS_CONGRUENT_BY_IS_ZERO: [Code; 2] = [Code::Call2(SUBTRACT, 0, 1), Code::Call1(IS_ZERO, 2)];

const IDENTITY_BY_DIRECT_SUM: [Code; 4] = [
    Code::Call2(DIRECT_SUM, 0, 0),
    Code::Part(1, 1),
    Code::Part(1, 3),
    Code::Call2(COMPOSE, 2, 3),
];

const PRODUCT_BY_DIRECT_SUM: [Code; 4] = [
    Code::Call2(DIRECT_SUM, 0, 1),
    Code::Part(2, 3),
    Code::Part(2, 4),
    Code::Tuple2(3, 4),
];

const COPRODUCT_BY_DIRECT_SUM: [Code; 4] = [
    Code::Call2(DIRECT_SUM, 0, 1),
    Code::Part(2, 1),
    Code::Part(2, 2),
    Code::Tuple2(3, 4),
];

const DIRECT_SUM_BY_PRODUCT: [Code; 14] = [
    Code::Call2(PRODUCT, 0, 1),
    Code::Part(2, 1),
    Code::Part(2, 2),
    Code::Call1(IDENTITY, 0),
    Code::Call2(ZERO, 0, 1),
    Code::Call4(PAIR, 3, 4, 5, 6),
    Code::Part(2, 1),
    Code::Part(2, 2),
    Code::Call2(ZERO, 1, 0),
    Code::Call1(IDENTITY, 1),
    Code::Call4(PAIR, 8, 9, 10, 11),
    Code::Part(2, 1),
    Code::Part(2, 2),
    Code::Tuple4(7, 12, 13, 14),
];

const DIRECT_SUM_BY_COPRODUCT: [Code; 14] = [
    Code::Call2(COPRODUCT, 0, 1),
    Code::Part(2, 1),
    Code::Part(2, 2),
    Code::Call1(IDENTITY, 0),
    Code::Call2(ZERO, 1, 0),
    Code::Call4(COPAIR, 3, 4, 5, 6),
    Code::Part(2, 1),
    Code::Part(2, 2),
    Code::Call2(ZERO, 0, 1),
    Code::Call1(IDENTITY, 1),
    Code::Call4(COPAIR, 8, 9, 10, 11),
    Code::Part(2, 1),
    Code::Part(2, 2),
    Code::Tuple4(13, 14, 7, 12),
];

const PAIR_BY_LIFT: [Code; 14] = [
    Code::Tgt(0),
    Code::Tgt(1),
    Code::Call2(DIRECT_SUM, 4, 5),
    Code::Part(6, 1),
    Code::Call2(COMPOSE, 0, 7),
    Code::Part(6, 2),
    Code::Call2(COMPOSE, 1, 9),
    Code::Call2(ADD, 8, 10),
    Code::Part(6, 1),
    Code::Call2(COMPOSE, 2, 12),
    Code::Part(6, 2),
    Code::Call2(COMPOSE, 3, 14),
    Code::Call2(ADD, 13, 15),
    Code::Call2(LIFT, 16, 11),
];

const COPAIR_BY_COLIFT: [Code; 14] = [
    Code::Src(0),
    Code::Src(1),
    Code::Call2(DIRECT_SUM, 4, 5),
    Code::Part(6, 3),
    Code::Call2(COMPOSE, 7, 0),
    Code::Part(6, 4),
    Code::Call2(COMPOSE, 9, 1),
    Code::Call2(ADD, 8, 10),
    Code::Part(6, 3),
    Code::Call2(COMPOSE, 12, 2),
    Code::Part(6, 4),
    Code::Call2(COMPOSE, 14, 3),
    Code::Call2(ADD, 13, 15),
    Code::Call2(COLIFT, 11, 16),
];

const LIFT_BY_PAIR: [Code; 1] = [Code::Call4(PAIR, 1, 1, 0, 0)];

const COLIFT_BY_COPAIR: [Code; 1] = [Code::Call4(COPAIR, 0, 0, 1, 1)];

const KERNEL_BY_EQUALIZER: [Code; 4] = [
    Code::Src(0),
    Code::Tgt(0),
    Code::Call2(ZERO, 1, 2),
    Code::Call2(EQUALIZER, 0, 3),
];

const COKERNEL_BY_COEQUALIZER: [Code; 4] = [
    Code::Src(0),
    Code::Tgt(0),
    Code::Call2(ZERO, 1, 2),
    Code::Call2(COEQUALIZER, 0, 3),
];

const EQUALIZER_BY_KERNEL: [Code; 2] = [Code::Call2(SUBTRACT, 0, 1), Code::Call1(KERNEL, 2)];

const COEQUALIZER_BY_COKERNEL: [Code; 2] = [Code::Call2(SUBTRACT, 0, 1), Code::Call1(COKERNEL, 2)];

const PULLBACK_BY_KERNEL: [Code; 14] = [
    Code::Src(0),
    Code::Src(1),
    Code::Call2(DIRECT_SUM, 2, 3),
    Code::Part(4, 3),
    Code::Call2(COMPOSE, 5, 0),
    Code::Part(4, 4),
    Code::Call2(COMPOSE, 7, 1),
    Code::Call2(SUBTRACT, 6, 8),
    Code::Call1(KERNEL, 9),
    Code::Part(4, 3),
    Code::Call2(COMPOSE, 10, 11),
    Code::Part(4, 4),
    Code::Call2(COMPOSE, 10, 13),
    Code::Tuple2(12, 14),
];

const PUSHOUT_BY_COKERNEL: [Code; 14] = [
    Code::Tgt(0),
    Code::Tgt(1),
    Code::Call2(DIRECT_SUM, 2, 3),
    Code::Part(4, 1),
    Code::Call2(COMPOSE, 0, 5),
    Code::Part(4, 2),
    Code::Call2(COMPOSE, 1, 7),
    Code::Call2(SUBTRACT, 6, 8),
    Code::Call1(COKERNEL, 9),
    Code::Part(4, 1),
    Code::Call2(COMPOSE, 11, 10),
    Code::Part(4, 2),
    Code::Call2(COMPOSE, 13, 10),
    Code::Tuple2(12, 14),
];

const PULLBACK_BY_EQUALIZER: [Code; 13] = [
    Code::Src(0),
    Code::Src(1),
    Code::Call2(PRODUCT, 2, 3),
    Code::Part(4, 1),
    Code::Call2(COMPOSE, 5, 0),
    Code::Part(4, 2),
    Code::Call2(COMPOSE, 7, 1),
    Code::Call2(EQUALIZER, 6, 8),
    Code::Part(4, 1),
    Code::Call2(COMPOSE, 9, 10),
    Code::Part(4, 2),
    Code::Call2(COMPOSE, 9, 12),
    Code::Tuple2(11, 13),
];

const PUSHOUT_BY_COEQUALIZER: [Code; 13] = [
    Code::Tgt(0),
    Code::Tgt(1),
    Code::Call2(COPRODUCT, 2, 3),
    Code::Part(4, 1),
    Code::Call2(COMPOSE, 0, 5),
    Code::Part(4, 2),
    Code::Call2(COMPOSE, 1, 7),
    Code::Call2(COEQUALIZER, 6, 8),
    Code::Part(4, 1),
    Code::Call2(COMPOSE, 10, 9),
    Code::Part(4, 2),
    Code::Call2(COMPOSE, 12, 9),
    Code::Tuple2(11, 13),
];

const KERNEL_BY_PULLBACK: [Code; 6] = [
    Code::Call0(ZERO_OBJECT),
    Code::Src(1),
    Code::Tgt(0),
    Code::Call2(ZERO, 2, 3),
    Code::Call2(PULLBACK, 0, 4),
    Code::Part(5, 1),
];

const COKERNEL_BY_PUSHOUT: [Code; 6] = [
    Code::Call0(ZERO_OBJECT),
    Code::Src(0),
    Code::Src(1),
    Code::Call2(ZERO, 2, 3),
    Code::Call2(PUSHOUT, 0, 4),
    Code::Part(5, 1),
];

const WEAK_KERNEL_BY_KERNEL: [Code; 1] = [Code::Call1(KERNEL, 0)];

const WEAK_COKERNEL_BY_COKERNEL: [Code; 1] = [Code::Call1(COKERNEL, 0)];

const KERNEL_LIFT_BY_LIFT: [Code; 1] = [Code::Call2(LIFT, 1, 0)];

const COKERNEL_COLIFT_BY_COLIFT: [Code; 1] = [Code::Call2(COLIFT, 0, 1)];

const IS_MONO_BY_KERNEL: [Code; 2] = [Code::Call1(KERNEL, 0), Code::Call1(IS_ZERO, 1)];

const IS_EPI_BY_COKERNEL: [Code; 2] = [Code::Call1(COKERNEL, 0), Code::Call1(IS_ZERO, 1)];

const IS_MONO_BY_PULLBACK: [Code; 4] = [
    Code::Call2(PULLBACK, 0, 0),
    Code::Part(1, 1),
    Code::Part(1, 2),
    Code::Call2(IS_CONGRUENT, 2, 3),
];

const IS_EPI_BY_PUSHOUT: [Code; 4] = [
    Code::Call2(PUSHOUT, 0, 0),
    Code::Part(1, 1),
    Code::Part(1, 2),
    Code::Call2(IS_CONGRUENT, 2, 3),
];

const IS_MONO_BY_WEAK_KERNEL: [Code; 2] = [Code::Call1(WEAK_KERNEL, 0), Code::Call1(IS_ZERO, 1)];

const IS_EPI_BY_WEAK_COKERNEL: [Code; 2] = [Code::Call1(WEAK_COKERNEL, 0), Code::Call1(IS_ZERO, 1)];

const IS_ISO_BY_INVERSE: [Code; 2] = [Code::Call1(INVERSE, 0), Code::Exists(1)];

const IS_ISO_BY_IS_MONO: [Code; 3] = [
    Code::Call1(IS_MONO, 0),
    Code::Call1(IS_EPI, 0),
    Code::Both(1, 2),
];

const IS_ISO_BY_IS_SPLIT_MONO: [Code; 3] = [
    Code::Call1(IS_SPLIT_MONO, 0),
    Code::Call1(IS_SPLIT_EPI, 0),
    Code::Both(1, 2),
];

const IS_SPLIT_MONO_BY_RETRACTION: [Code; 2] = [Code::Call1(RETRACTION, 0), Code::Exists(1)];

const IS_SPLIT_EPI_BY_SECTION: [Code; 2] = [Code::Call1(SECTION, 0), Code::Exists(1)];

const SECTION_BY_LIFT: [Code; 3] = [
    Code::Tgt(0),
    Code::Call1(IDENTITY, 1),
    Code::Call2(LIFT, 2, 0),
];

const RETRACTION_BY_COLIFT: [Code; 3] = [
    Code::Src(0),
    Code::Call1(IDENTITY, 1),
    Code::Call2(COLIFT, 0, 2),
];

const INVERSE_BY_SECTION: [Code; 6] = [
    Code::Call1(SECTION, 0),
    Code::Call2(COMPOSE, 0, 1),
    Code::Src(0),
    Code::Call1(IDENTITY, 3),
    Code::Call2(IS_CONGRUENT, 2, 4),
    Code::When(5, 1),
];

const INVERSE_BY_RETRACTION: [Code; 6] = [
    Code::Call1(RETRACTION, 0),
    Code::Call2(COMPOSE, 1, 0),
    Code::Tgt(0),
    Code::Call1(IDENTITY, 3),
    Code::Call2(IS_CONGRUENT, 2, 4),
    Code::When(5, 1),
];

const IMAGE_BY_KERNEL: [Code; 4] = [
    Code::Call1(COKERNEL, 0),
    Code::Call1(KERNEL, 1),
    Code::Call2(KERNEL_LIFT, 2, 0),
    Code::Tuple2(3, 2),
];

const COIMAGE_BY_COKERNEL: [Code; 4] = [
    Code::Call1(KERNEL, 0),
    Code::Call1(COKERNEL, 1),
    Code::Call2(COKERNEL_COLIFT, 2, 0),
    Code::Tuple2(2, 3),
];

const IMAGE_BY_COIMAGE: [Code; 1] = [Code::Call1(COIMAGE, 0)];

const COIMAGE_BY_IMAGE: [Code; 1] = [Code::Call1(IMAGE, 0)];

const KERNEL_MAP_BY_KERNEL_LIFT: [Code; 2] = [
    Code::Call2(COMPOSE, 0, 1),
    Code::Call2(KERNEL_LIFT, 2, 3),
];

const COKERNEL_MAP_BY_COKERNEL_COLIFT: [Code; 2] = [
    Code::Call2(COMPOSE, 1, 2),
    Code::Call2(COKERNEL_COLIFT, 0, 3),
];

const INTERSECTION_BY_PULLBACK: [Code; 3] = [
    Code::Call2(PULLBACK, 0, 1),
    Code::Part(2, 1),
    Code::Call2(COMPOSE, 3, 0),
];

const UNION_BY_IMAGE: [Code; 8] = [
    Code::Src(0),
    Code::Src(1),
    Code::Call2(COPRODUCT, 2, 3),
    Code::Part(4, 1),
    Code::Part(4, 2),
    Code::Call4(COPAIR, 5, 6, 0, 1),
    Code::Call1(IMAGE, 7),
    Code::Part(8, 2),
];

const IS_SUBOBJECT_BY_LIFT: [Code; 2] = [Code::Call2(LIFT, 0, 1), Code::Exists(2)];

const HOMOLOGY_BY_KERNEL: [Code; 4] = [
    Code::Call1(KERNEL, 1),
    Code::Call2(KERNEL_LIFT, 2, 0),
    Code::Call1(COKERNEL, 3),
    Code::Tuple2(2, 4),
];

const IS_EXACT_BY_KERNEL: [Code; 7] = [
    Code::Call2(COMPOSE, 0, 1),
    Code::Call1(IS_ZERO, 2),
    Code::Call1(KERNEL, 1),
    Code::Call1(COKERNEL, 0),
    Code::Call2(COMPOSE, 4, 5),
    Code::Call1(IS_ZERO, 6),
    Code::Both(3, 7),
];

const IS_EXACT_BY_WEAK_KERNEL: [Code; 7] = [
    Code::Call2(COMPOSE, 0, 1),
    Code::Call1(IS_ZERO, 2),
    Code::Call1(WEAK_KERNEL, 1),
    Code::Call1(WEAK_COKERNEL, 0),
    Code::Call2(COMPOSE, 4, 5),
    Code::Call1(IS_ZERO, 6),
    Code::Both(3, 7),
];

const EQUALIZER_BY_PULLBACK: [Code; 13] = [
    Code::Src(0),
    Code::Tgt(0),
    Code::Call2(DIRECT_SUM, 2, 3),
    Code::Part(4, 1),
    Code::Part(4, 2),
    Code::Call2(COMPOSE, 0, 6),
    Code::Call2(ADD, 5, 7),
    Code::Part(4, 1),
    Code::Part(4, 2),
    Code::Call2(COMPOSE, 1, 10),
    Code::Call2(ADD, 9, 11),
    Code::Call2(PULLBACK, 8, 12),
    Code::Part(13, 1),
];

const COEQUALIZER_BY_PUSHOUT: [Code; 13] = [
    Code::Src(0),
    Code::Tgt(0),
    Code::Call2(DIRECT_SUM, 2, 3),
    Code::Part(4, 4),
    Code::Part(4, 3),
    Code::Call2(COMPOSE, 6, 0),
    Code::Call2(ADD, 5, 7),
    Code::Part(4, 4),
    Code::Part(4, 3),
    Code::Call2(COMPOSE, 10, 1),
    Code::Call2(ADD, 9, 11),
    Code::Call2(PUSHOUT, 8, 12),
    Code::Part(13, 1),
];

/// The bodies of the rules, in order of number.
pub static BODIES: [BodyCode; 59] = [
    BodyCode {
        params: 1,
        steps: &NEGATE_BY_SCALE,
        answer: 2,
    },
    BodyCode {
        params: 2,
        steps: &SUBTRACT_BY_ADD,
        answer: 3,
    },
    BodyCode {
        params: 2,
        steps: &ADD_BY_SUBTRACT,
        answer: 3,
    },
    BodyCode {
        params: 1,
        steps: &NEGATE_BY_SUBTRACT,
        answer: 4,
    },
    BodyCode {
        params: 2,
        steps: &ZERO_BY_DIRECT_SUM,
        answer: 5,
    },
    BodyCode {
        params: 1,
        steps: &IS_ZERO_BY_IS_CONGRUENT,
        answer: 4,
    },
    BodyCode {
        params: 2,
        steps: &IS_CONGRUENT_BY_IS_ZERO,
        answer: 3,
    },
    BodyCode {
        params: 1,
        steps: &IDENTITY_BY_DIRECT_SUM,
        answer: 4,
    },
    BodyCode {
        params: 2,
        steps: &PRODUCT_BY_DIRECT_SUM,
        answer: 5,
    },
    BodyCode {
        params: 2,
        steps: &COPRODUCT_BY_DIRECT_SUM,
        answer: 5,
    },
    BodyCode {
        params: 2,
        steps: &DIRECT_SUM_BY_PRODUCT,
        answer: 15,
    },
    BodyCode {
        params: 2,
        steps: &DIRECT_SUM_BY_COPRODUCT,
        answer: 15,
    },
    BodyCode {
        params: 4,
        steps: &PAIR_BY_LIFT,
        answer: 17,
    },
    BodyCode {
        params: 4,
        steps: &COPAIR_BY_COLIFT,
        answer: 17,
    },
    BodyCode {
        params: 2,
        steps: &LIFT_BY_PAIR,
        answer: 2,
    },
    BodyCode {
        params: 2,
        steps: &COLIFT_BY_COPAIR,
        answer: 2,
    },
    BodyCode {
        params: 1,
        steps: &KERNEL_BY_EQUALIZER,
        answer: 4,
    },
    BodyCode {
        params: 1,
        steps: &COKERNEL_BY_COEQUALIZER,
        answer: 4,
    },
    BodyCode {
        params: 2,
        steps: &EQUALIZER_BY_KERNEL,
        answer: 3,
    },
    BodyCode {
        params: 2,
        steps: &COEQUALIZER_BY_COKERNEL,
        answer: 3,
    },
    BodyCode {
        params: 2,
        steps: &PULLBACK_BY_KERNEL,
        answer: 15,
    },
    BodyCode {
        params: 2,
        steps: &PUSHOUT_BY_COKERNEL,
        answer: 15,
    },
    BodyCode {
        params: 2,
        steps: &PULLBACK_BY_EQUALIZER,
        answer: 14,
    },
    BodyCode {
        params: 2,
        steps: &PUSHOUT_BY_COEQUALIZER,
        answer: 14,
    },
    BodyCode {
        params: 1,
        steps: &KERNEL_BY_PULLBACK,
        answer: 6,
    },
    BodyCode {
        params: 1,
        steps: &COKERNEL_BY_PUSHOUT,
        answer: 6,
    },
    BodyCode {
        params: 1,
        steps: &WEAK_KERNEL_BY_KERNEL,
        answer: 1,
    },
    BodyCode {
        params: 1,
        steps: &WEAK_COKERNEL_BY_COKERNEL,
        answer: 1,
    },
    BodyCode {
        params: 2,
        steps: &KERNEL_LIFT_BY_LIFT,
        answer: 2,
    },
    BodyCode {
        params: 2,
        steps: &COKERNEL_COLIFT_BY_COLIFT,
        answer: 2,
    },
    BodyCode {
        params: 1,
        steps: &IS_MONO_BY_KERNEL,
        answer: 2,
    },
    BodyCode {
        params: 1,
        steps: &IS_EPI_BY_COKERNEL,
        answer: 2,
    },
    BodyCode {
        params: 1,
        steps: &IS_MONO_BY_PULLBACK,
        answer: 4,
    },
    BodyCode {
        params: 1,
        steps: &IS_EPI_BY_PUSHOUT,
        answer: 4,
    },
    BodyCode {
        params: 1,
        steps: &IS_MONO_BY_WEAK_KERNEL,
        answer: 2,
    },
    BodyCode {
        params: 1,
        steps: &IS_EPI_BY_WEAK_COKERNEL,
        answer: 2,
    },
    BodyCode {
        params: 1,
        steps: &IS_ISO_BY_INVERSE,
        answer: 2,
    },
    BodyCode {
        params: 1,
        steps: &IS_ISO_BY_IS_MONO,
        answer: 3,
    },
    BodyCode {
        params: 1,
        steps: &IS_ISO_BY_IS_SPLIT_MONO,
        answer: 3,
    },
    BodyCode {
        params: 1,
        steps: &IS_SPLIT_MONO_BY_RETRACTION,
        answer: 2,
    },
    BodyCode {
        params: 1,
        steps: &IS_SPLIT_EPI_BY_SECTION,
        answer: 2,
    },
    BodyCode {
        params: 1,
        steps: &SECTION_BY_LIFT,
        answer: 3,
    },
    BodyCode {
        params: 1,
        steps: &RETRACTION_BY_COLIFT,
        answer: 3,
    },
    BodyCode {
        params: 1,
        steps: &INVERSE_BY_SECTION,
        answer: 6,
    },
    BodyCode {
        params: 1,
        steps: &INVERSE_BY_RETRACTION,
        answer: 6,
    },
    BodyCode {
        params: 1,
        steps: &IMAGE_BY_KERNEL,
        answer: 4,
    },
    BodyCode {
        params: 1,
        steps: &COIMAGE_BY_COKERNEL,
        answer: 4,
    },
    BodyCode {
        params: 1,
        steps: &IMAGE_BY_COIMAGE,
        answer: 1,
    },
    BodyCode {
        params: 1,
        steps: &COIMAGE_BY_IMAGE,
        answer: 1,
    },
    BodyCode {
        params: 3,
        steps: &KERNEL_MAP_BY_KERNEL_LIFT,
        answer: 4,
    },
    BodyCode {
        params: 3,
        steps: &COKERNEL_MAP_BY_COKERNEL_COLIFT,
        answer: 4,
    },
    BodyCode {
        params: 2,
        steps: &INTERSECTION_BY_PULLBACK,
        answer: 4,
    },
    BodyCode {
        params: 2,
        steps: &UNION_BY_IMAGE,
        answer: 9,
    },
    BodyCode {
        params: 2,
        steps: &IS_SUBOBJECT_BY_LIFT,
        answer: 3,
    },
    BodyCode {
        params: 2,
        steps: &HOMOLOGY_BY_KERNEL,
        answer: 5,
    },
    BodyCode {
        params: 2,
        steps: &IS_EXACT_BY_KERNEL,
        answer: 8,
    },
    BodyCode {
        params: 2,
        steps: &IS_EXACT_BY_WEAK_KERNEL,
        answer: 8,
    },
    BodyCode {
        params: 2,
        steps: &EQUALIZER_BY_PULLBACK,
        answer: 14,
    },
    BodyCode {
        params: 2,
        steps: &COEQUALIZER_BY_PUSHOUT,
        answer: 14,
    },
];
