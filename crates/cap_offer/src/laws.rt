// The laws of categories of every kind and of their literals, each a call that does nothing.
ghost use Rattle.cap_offer.specs.Laws.{OfferGoesByLabel, RulesHold, AnswersAreCanonical, LiteralsAreOne};

/// The offer of a label has its kind, its kind's weights and its prime, and equal labels have one offer.
pub fn law_any_of_label()
    ensures { OfferGoesByLabel }
{}

/// All rules that a kind allows hold in its categories, so that values of calls have their operations' meanings.
pub fn law_any_rules_hold()
    ensures { RulesHold }
{}

/// The answers of primitives are the canonical ones.
pub fn law_any_canonical()
    ensures { AnswersAreCanonical }
{}

/// A literal stands for at most one datum.
pub fn law_literals_are_one()
    ensures { LiteralsAreOne }
{}
