// The operations by name.
use cap_names::OpId;

pub const IDENTITY: OpId = OpId(1);

pub const COMPOSE: OpId = OpId(2);

pub const ZERO: OpId = OpId(3);

pub const ADD: OpId = OpId(4);

pub const NEGATE: OpId = OpId(5);

pub const SUBTRACT: OpId = OpId(6);

pub const SCALE: OpId = OpId(7);

pub const IS_CONGRUENT: OpId = OpId(8);

pub const IS_ZERO: OpId = OpId(9);

pub const ZERO_OBJECT: OpId = OpId(10);

pub const DIRECT_SUM: OpId = OpId(11);

pub const PRODUCT: OpId = OpId(12);

pub const COPRODUCT: OpId = OpId(13);

pub const PAIR: OpId = OpId(14);

pub const COPAIR: OpId = OpId(15);

pub const KERNEL: OpId = OpId(16);

pub const KERNEL_LIFT: OpId = OpId(17);

pub const COKERNEL: OpId = OpId(18);

pub const COKERNEL_COLIFT: OpId = OpId(19);

pub const WEAK_KERNEL: OpId = OpId(20);

pub const WEAK_COKERNEL: OpId = OpId(21);

pub const LIFT: OpId = OpId(22);

pub const COLIFT: OpId = OpId(23);

pub const IS_MONO: OpId = OpId(24);

pub const IS_EPI: OpId = OpId(25);

pub const IS_ISO: OpId = OpId(26);

pub const IS_SPLIT_MONO: OpId = OpId(27);

pub const IS_SPLIT_EPI: OpId = OpId(28);

pub const INVERSE: OpId = OpId(29);

pub const SECTION: OpId = OpId(30);

pub const RETRACTION: OpId = OpId(31);

pub const EQUALIZER: OpId = OpId(32);

pub const COEQUALIZER: OpId = OpId(33);

pub const PULLBACK: OpId = OpId(34);

pub const PUSHOUT: OpId = OpId(35);

pub const IMAGE: OpId = OpId(36);

pub const COIMAGE: OpId = OpId(37);

pub const KERNEL_MAP: OpId = OpId(38);

pub const COKERNEL_MAP: OpId = OpId(39);

pub const INTERSECTION: OpId = OpId(40);

pub const UNION: OpId = OpId(41);

pub const IS_SUBOBJECT: OpId = OpId(42);

pub const HOMOLOGY: OpId = OpId(43);

pub const IS_EXACT: OpId = OpId(44);
