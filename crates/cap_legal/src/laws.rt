// The laws of legal histories, each a call that does nothing.
ghost use Rattle.cap_legal.specs.Good.{LegalIsGood};
ghost use Rattle.cap_legal.specs.Laws.{TrueStays, TrueMay, FrontIsLegal, NextIsLegal, FullIsWhole};

use cap_ops::Offer;

/// A legal history is good: the data of each value are those of plain evaluation by the plan of what was registered
/// before, and equal keys have one value.
pub fn law_legal_is_good<C: Offer>()
    ensures { (c : C) → LegalIsGood (C.offered c) }
{}

/// An event that is true on a history is true on each longer one.
pub fn law_true_stays<C: Offer>()
    ensures { (c : C) → TrueStays (C.offered c) }
{}

/// A true event may be asked.
pub fn law_true_may<C: Offer>()
    ensures { (c : C) → TrueMay (C.offered c) }
{}

/// A front of a legal history is legal.
pub fn law_front_is_legal<C: Offer>()
    ensures { (c : C) → FrontIsLegal (C.offered c) }
{}

/// A legal history with one more entry that is legal on it is legal.
pub fn law_next_is_legal<C: Offer>()
    ensures { (c : C) → NextIsLegal (C.offered c) }
{}

/// No legal history is longer than a full one.
pub fn law_full_is_whole<C: Offer>()
    ensures { (c : C) → FullIsWhole (C.offered c) }
{}
