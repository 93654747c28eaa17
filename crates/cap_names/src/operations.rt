// The names of the operations.
ghost use Rattle.std.specs.Prelude.{◌≡◌, ℕ, ◌≤◌, map, MatchOption, Contains};
ghost use Rattle.cap_names.specs.Operations.{operation_names, IsNamed};

use crate::identifiers::OpId;

/// The names of the 44 operations, in the order of their numbers.
const NAMES: [&str; 44] = [
    "Identity",
    "Compose",
    "Zero",
    "Add",
    "Negate",
    "Subtract",
    "Scale",
    "IsCongruent",
    "IsZero",
    "ZeroObject",
    "DirectSum",
    "Product",
    "Coproduct",
    "Pair",
    "Copair",
    "Kernel",
    "KernelLift",
    "Cokernel",
    "CokernelColift",
    "WeakKernel",
    "WeakCokernel",
    "Lift",
    "Colift",
    "IsMono",
    "IsEpi",
    "IsIso",
    "IsSplitMono",
    "IsSplitEpi",
    "Inverse",
    "Section",
    "Retraction",
    "Equalizer",
    "Coequalizer",
    "Pullback",
    "Pushout",
    "Image",
    "Coimage",
    "KernelMap",
    "CokernelMap",
    "Intersection",
    "Union",
    "IsSubobject",
    "Homology",
    "IsExact",
];

fn names() -> &'static [&'static str; 44]
    ensures { map (λ name. name.now) result.now ≡ operation_names }
{
    &NAMES
}

/// The operation of this name, if there is one.
pub fn op_by_name(word: &[u8]) -> Option<OpId>
    ensures found { MatchOption result (¬ Contains operation_names word.now) (λ op. IsNamed op.0 word.now) }
    ensures only { (number : ℕ) → IsNamed number word.now → result ≡ Some (record { 0 = number }) }
{
    'numbers: for number in 1..45 {
        let op = OpId(number);
        if op_name(op).as_bytes() == word {
            return Some(op);
        }
    }
    None
}

/// The name of an operation.
pub fn op_name(op: OpId) -> &'static str
    requires first { 1 ≤ op.0 }
    requires last { op.0 ≤ 44 }
    ensures { IsNamed op.0 result.now }
{
    let names = names();
    names[op.0 as usize - 1]
}
