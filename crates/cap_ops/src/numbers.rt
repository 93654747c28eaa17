// The numbers that definitions take from the code, in figures, and those of the operations beside their names.
ghost use Rattle.std.specs.Prelude.{◌≡◌, ◌↔◌, ◌+◌, ◌^◌, ℕ, List};
ghost use Rattle.std.specs.List.{All};
ghost use Rattle.cap_names.specs.Operations.{IsNamed};
ghost use Rattle.cap_ops.specs.Operations.{operation};
ghost use Rattle.cap_ops.specs.Numbers.{numbered, IsNumbered};

use super::plans::{MOST_WEIGHT, NO_PLAN, OPERATIONS};

/// There are 44 operations, a weight is at most 1,000,000, and the bound of what is missing is 10^15 + 1.
pub fn law_numbers()
    ensures operations { OPERATIONS ≡ 44 }
    ensures most_weight { MOST_WEIGHT ≡ 1000000 }
    ensures no_plan { NO_PLAN ≡ 10 ^ 15 + 1 }
{}

/// The operations have the numbers and the names of the table, and no others. The definitions' words and the code's constants
/// for them are the same operations.
pub fn law_operations_are_numbered()
    ensures names { (number : ℕ) (name : List ℕ) → IsNamed number name ↔ IsNumbered number name }
    ensures words { All (λ l. l.word ≡ operation l.number) numbered }
    ensures constants { All (λ l. l.constant ≡ operation l.number) numbered }
{}
