// The sorts of the operations.
ghost use Rattle.std.specs.Prelude.{◌≡◌, option_map};
ghost use Rattle.cap_ops.specs.Ends.{IsOperation, operation_arguments, operation_answer, padded, sort_of};

use crate::ends::{OperationEnds, Shape, operation_ends};
use crate::sorts::{Signature, Sort};
use cap_names::OpId;

fn bare_sort(shape: Shape<u8>) -> Sort
    ensures { result ≡ sort_of shape }
{
    match shape {
        Shape::Object(_) => Sort::Obj,
        Shape::Morphism(_) => Sort::Mor,
        Shape::Two(_, _) => Sort::Tuple(2),
        Shape::Four(_, _, _, _) => Sort::Tuple(4),
        Shape::Truth => Sort::Truth,
        Shape::Scalar => Sort::Num,
    }
}

fn sort_at(place: Option<Shape<u8>>) -> Option<Sort>
    ensures { result ≡ option_map sort_of place }
{
    match place {
        None => None,
        Some(shape) => Some(bare_sort(shape)),
    }
}

/// The sorts of an operation's arguments and answer.
pub fn signature(op: OpId) -> Signature
    requires { IsOperation op.0 }
    ensures args { result.args ≡ padded (operation_arguments op.0) }
    ensures answer { result.answer ≡ operation_answer op.0 }
{
    let OperationEnds { args, answer } = operation_ends(op);
    let [first, second, third, fourth] = args;
    Signature {
        args: [
            sort_at(first),
            sort_at(second),
            sort_at(third),
            sort_at(fourth),
        ],
        answer: bare_sort(answer),
    }
}
