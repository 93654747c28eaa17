// The laws of the offer, each a call that does nothing.
ghost use Rattle.cap_add_offer.specs.Canonical.{AnswersAreCanonical};
ghost use Rattle.cap_add_offer.specs.Laws.{IsOfLists, RulesHold, ObjectsAreLists, MorphismsAreEntries};

/// The offer is one of an additive closure: its kind, its weights and its prime.
pub fn law_offer_of_lists()
    ensures { IsOfLists }
{}

/// Its kind is that of additive closures, for which the rules that need kernels are not allowed.
pub fn law_offer_rules_hold()
    ensures { RulesHold }
{}

/// Its objects are the lists of objects of the table.
pub fn law_offer_objects()
    ensures { ObjectsAreLists }
{}

/// Its morphisms are the matrices of combinations between two lists.
pub fn law_offer_morphisms()
    ensures { MorphismsAreEntries }
{}

/// Its answers are the canonical ones.
pub fn law_offer_canonical()
    ensures { AnswersAreCanonical }
{}
