// The laws of histories, each a call that does nothing.
ghost use Rattle.cap_history.specs.Laws.{OneMoreEntry, RefusalsChangeNothing};

/// A history with one more entry says what it said before, with what that entry adds.
pub fn law_one_more_entry<O, M>()
    ensures { OneMoreEntry O M }
{}

/// An entry that refuses changes nothing but the history.
pub fn law_refusals_change_nothing<O, M>()
    ensures { RefusalsChangeNothing O M }
{}
