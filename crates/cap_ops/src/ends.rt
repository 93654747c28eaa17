// The sorts and ends of the operations as a table.
ghost use Rattle.std.specs.Prelude.{◌≡◌, length};
ghost use Rattle.cap_ops.specs.Ends.{IsOperation, padded, profile_of};

use cap_names::OpId;

/// The ends of a morphism. `X` names objects.
#[derive(Debug, Clone, Copy, PartialEq, Eq)]
pub struct Ends<X> {
    pub src: X,
    pub tgt: X,
}

/// The sort of a value with its ends. `X` names objects; in the table of operations they are letters.
#[derive(Debug, Clone, Copy, PartialEq, Eq)]
pub enum Shape<X> {
    Object(X),
    Morphism(Ends<X>),
    Two(Ends<X>, Ends<X>),
    Four(Ends<X>, Ends<X>, Ends<X>, Ends<X>),
    Truth,
    Scalar,
}

/// What an operation takes, and what it answers where that is not none. Objects are letters, numbered from 0 in the
/// order of first mention; a letter that no argument has is a new object.
#[derive(Debug, Clone, Copy, PartialEq, Eq)]
pub struct OperationEnds {
    pub args: [Option<Shape<u8>>; 4],
    pub answer: Shape<u8>,
}

// The ends from one letter to another, and as an argument the object or morphism of letters.
const E00: Ends<u8> = Ends { src: 0, tgt: 0 };

const E01: Ends<u8> = Ends { src: 0, tgt: 1 };

const E02: Ends<u8> = Ends { src: 0, tgt: 2 };

const E03: Ends<u8> = Ends { src: 0, tgt: 3 };

const E10: Ends<u8> = Ends { src: 1, tgt: 0 };

const E12: Ends<u8> = Ends { src: 1, tgt: 2 };

const E13: Ends<u8> = Ends { src: 1, tgt: 3 };

const E20: Ends<u8> = Ends { src: 2, tgt: 0 };

const E21: Ends<u8> = Ends { src: 2, tgt: 1 };

const E23: Ends<u8> = Ends { src: 2, tgt: 3 };

const E30: Ends<u8> = Ends { src: 3, tgt: 0 };

const E31: Ends<u8> = Ends { src: 3, tgt: 1 };

const E32: Ends<u8> = Ends { src: 3, tgt: 2 };

const E34: Ends<u8> = Ends { src: 3, tgt: 4 };

const O0: Option<Shape<u8>> = Some(Shape::Object(0));

const O1: Option<Shape<u8>> = Some(Shape::Object(1));

const M01: Option<Shape<u8>> = Some(Shape::Morphism(E01));

const M02: Option<Shape<u8>> = Some(Shape::Morphism(E02));

const M03: Option<Shape<u8>> = Some(Shape::Morphism(E03));

const M12: Option<Shape<u8>> = Some(Shape::Morphism(E12));

const M21: Option<Shape<u8>> = Some(Shape::Morphism(E21));

const M23: Option<Shape<u8>> = Some(Shape::Morphism(E23));

const M31: Option<Shape<u8>> = Some(Shape::Morphism(E31));

const M32: Option<Shape<u8>> = Some(Shape::Morphism(E32));

const NUMBER: Option<Shape<u8>> = Some(Shape::Scalar);

// The arguments, None after the last, and the answer.
#[derive(Clone, Copy)]
struct Line(
    Option<Shape<u8>>,
    Option<Shape<u8>>,
    Option<Shape<u8>>,
    Option<Shape<u8>>,
    Shape<u8>,
);

static TABLE: [Line; 44] = [
    // 1 Identity
    Line(O0, None, None, None, Shape::Morphism(E00)),
    // 2 Compose
    Line(M01, M12, None, None, Shape::Morphism(E02)),
    // 3 Zero
    Line(O0, O1, None, None, Shape::Morphism(E01)),
    // 4 Add
    Line(M01, M01, None, None, Shape::Morphism(E01)),
    // 5 Negate
    Line(M01, None, None, None, Shape::Morphism(E01)),
    // 6 Subtract
    Line(M01, M01, None, None, Shape::Morphism(E01)),
    // 7 Scale
    Line(NUMBER, M01, None, None, Shape::Morphism(E01)),
    // 8 IsCongruent
    Line(M01, M01, None, None, Shape::Truth),
    // 9 IsZero
    Line(M01, None, None, None, Shape::Truth),
    // 10 ZeroObject
    Line(None, None, None, None, Shape::Morphism(E00)),
    // 11 DirectSum
    Line(O0, O1, None, None, Shape::Four(E02, E12, E20, E21)),
    // 12 Product
    Line(O0, O1, None, None, Shape::Two(E20, E21)),
    // 13 Coproduct
    Line(O0, O1, None, None, Shape::Two(E02, E12)),
    // 14 Pair
    Line(M01, M02, M31, M32, Shape::Morphism(E30)),
    // 15 Copair
    Line(M01, M21, M03, M23, Shape::Morphism(E13)),
    // 16 Kernel
    Line(M01, None, None, None, Shape::Morphism(E20)),
    // 17 KernelLift
    Line(M01, M21, None, None, Shape::Morphism(E20)),
    // 18 Cokernel
    Line(M01, None, None, None, Shape::Morphism(E12)),
    // 19 CokernelColift
    Line(M01, M02, None, None, Shape::Morphism(E12)),
    // 20 WeakKernel
    Line(M01, None, None, None, Shape::Morphism(E20)),
    // 21 WeakCokernel
    Line(M01, None, None, None, Shape::Morphism(E12)),
    // 22 Lift
    Line(M01, M21, None, None, Shape::Morphism(E02)),
    // 23 Colift
    Line(M01, M02, None, None, Shape::Morphism(E12)),
    // 24 IsMono
    Line(M01, None, None, None, Shape::Truth),
    // 25 IsEpi
    Line(M01, None, None, None, Shape::Truth),
    // 26 IsIso
    Line(M01, None, None, None, Shape::Truth),
    // 27 IsSplitMono
    Line(M01, None, None, None, Shape::Truth),
    // 28 IsSplitEpi
    Line(M01, None, None, None, Shape::Truth),
    // 29 Inverse
    Line(M01, None, None, None, Shape::Morphism(E10)),
    // 30 Section
    Line(M01, None, None, None, Shape::Morphism(E10)),
    // 31 Retraction
    Line(M01, None, None, None, Shape::Morphism(E10)),
    // 32 Equalizer
    Line(M01, M01, None, None, Shape::Morphism(E20)),
    // 33 Coequalizer
    Line(M01, M01, None, None, Shape::Morphism(E12)),
    // 34 Pullback
    Line(M01, M21, None, None, Shape::Two(E30, E32)),
    // 35 Pushout
    Line(M01, M02, None, None, Shape::Two(E13, E23)),
    // 36 Image
    Line(M01, None, None, None, Shape::Two(E02, E21)),
    // 37 Coimage
    Line(M01, None, None, None, Shape::Two(E02, E21)),
    // 38 KernelMap
    Line(M01, M12, M32, None, Shape::Morphism(E03)),
    // 39 CokernelMap
    Line(M01, M02, M23, None, Shape::Morphism(E13)),
    // 40 Intersection
    Line(M01, M21, None, None, Shape::Morphism(E31)),
    // 41 Union
    Line(M01, M21, None, None, Shape::Morphism(E31)),
    // 42 IsSubobject
    Line(M01, M21, None, None, Shape::Truth),
    // 43 Homology
    Line(M01, M12, None, None, Shape::Two(E31, E34)),
    // 44 IsExact
    Line(M01, M12, None, None, Shape::Truth),
];

/// The sorts and ends of an operation.
pub fn operation_ends(op: OpId) -> OperationEnds
    requires { IsOperation op.0 }
    ensures args { result.args ≡ padded (profile_of op.0).arguments }
    ensures answer { result.answer ≡ (profile_of op.0).answer }
{
    let Line(first, second, third, fourth, answer) = TABLE[usize::from(op.0) - 1];
    OperationEnds {
        args: [first, second, third, fourth],
        answer,
    }
}

/// How many arguments an operation takes.
pub fn arity(op: OpId) -> usize
    requires { IsOperation op.0 }
    ensures { result ≡ length (profile_of op.0).arguments }
{
    let [first, second, third, fourth] = operation_ends(op).args;
    if fourth.is_some() {
        4
    } else if third.is_some() {
        3
    } else if second.is_some() {
        2
    } else if first.is_some() {
        1
    } else {
        0
    }
}
