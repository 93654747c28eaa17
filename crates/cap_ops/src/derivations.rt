// Laws of derivations, plans and certificates, each a call that does nothing.
ghost use Rattle.std.specs.Prelude.{◌≡◌, ℕ, ◌<◌, ◌≤◌, List, length, slice_index};
ghost use Rattle.std.specs.List.{All};
ghost use Rattle.cap_ops.specs.Derivations.{Means, Derivation, One, weight, AreLowerBounds, IsLeast, IsCost, IsWeight, LineHolds, IsPlan};
ghost use Rattle.cap_ops.specs.declared.plans.Plan.{Plan};

use super::plans::OPERATIONS;

/// Lower bounds are at most the weight of every derivation.
pub fn law_lower_bounds()
    ensures { (m : Means) (bounds : List ℕ) (op : ℕ) → AreLowerBounds m bounds → (tree : Derivation m (One op)) → slice_index bounds op ≤ weight tree }
{}

/// An operation has one least weight.
pub fn law_one_least()
    ensures { (m : Means) (op a b : ℕ) → IsLeast m op a → IsLeast m op b → a ≡ b }
{}

/// Where no line is false, the bounds are least and the choices are those of the plan.
pub fn law_lines_suffice()
    ensures { (m : Means) (plan : Plan) → All IsCost m.rules → length plan.bounds ≡ OPERATIONS → length plan.choices ≡ OPERATIONS → ((op : ℕ) → op < OPERATIONS → LineHolds m plan op) → IsPlan m plan }
{}

/// No line of a plan is false.
pub fn law_lines_of_plan()
    ensures { (m : Means) (plan : Plan) → All IsCost m.rules → IsPlan m plan → (op : ℕ) → op < OPERATIONS → LineHolds m plan op }
{}

/// The bounds of a plan are lower bounds.
pub fn law_bounds_of_plan()
    ensures { (m : Means) (plan : Plan) → All IsWeight m.weights → All IsCost m.rules → IsPlan m plan → AreLowerBounds m plan.bounds }
{}

/// There is one plan.
pub fn law_one_plan()
    ensures { (m : Means) (a b : Plan) → IsPlan m a → IsPlan m b → a ≡ b }
{}
