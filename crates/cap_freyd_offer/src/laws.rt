// The laws of the offer, each a call that does nothing.
ghost use Rattle.cap_freyd_offer.specs.Canonical.{AnswersAreCanonical};
ghost use Rattle.cap_freyd_offer.specs.Laws.{IsOfPresentations, RulesHold, ObjectsAreRelations, MorphismsAreSquares};

/// The offer is one of a Freyd category: its kind, its weights and its prime.
pub fn law_offer_of_presentations()
    ensures { IsOfPresentations }
{}

/// The category of the offer is abelian, so that all rules hold in it.
pub fn law_offer_rules_hold()
    ensures { RulesHold }
{}

/// Its objects are the relations between two lists of table objects.
pub fn law_offer_objects()
    ensures { ObjectsAreRelations }
{}

/// Its morphisms are the matrices between the targets of two relations that send the relations of the one into those of the other.
pub fn law_offer_morphisms()
    ensures { MorphismsAreSquares }
{}

/// Its answers are the canonical ones.
pub fn law_offer_canonical()
    ensures { AnswersAreCanonical }
{}
