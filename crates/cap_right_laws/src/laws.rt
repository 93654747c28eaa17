// The laws of right histories, each a call that does nothing.
ghost use Rattle.cap_right_laws.specs.Laws.{LegalIsRight, AccountsAreRight};

/// A legal history of a category of any kind is right: equal keys have one value, and each value that is told is that
/// of plain evaluation by the plan and has its operation's meaning: kernels are kernels, pullbacks are pullbacks,
/// against every test morphism.
pub fn law_legal_is_right()
    ensures { LegalIsRight }
{}

/// Each history of a report that accounts for its script is right in its category.
pub fn law_accounts_are_right()
    ensures { AccountsAreRight }
{}
