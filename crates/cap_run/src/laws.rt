// Laws of plans and of plain evaluation. These functions run nothing: a caller learns the law from the contract.
ghost use Rattle.cap_run.specs.One.{RunIsOne};
ghost use Rattle.cap_run.specs.Plans.{PlansAreTrue};

use cap_ops::Offer;

/// By the plan of offered primitives over typed rules evaluation ends: each operation that a chosen body calls has a
/// smaller bound, and is never missing.
pub fn law_plans_are_true<C: Offer>()
    ensures { (c : C) → PlansAreTrue (C.offered c) }
{}

/// Plain evaluation has one value, but for the size that is named where sizes past the limits are met.
pub fn law_run_is_one<C: Offer>()
    ensures { (c : C) → RunIsOne (C.offered c) }
{}
