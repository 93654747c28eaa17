// The laws of literals, each a call that does nothing.
ghost use Rattle.cap_add_literals.specs.Laws.{ListLiteralsAreOne};

/// A literal stands for at most one datum.
pub fn law_list_literals_are_one()
    ensures { ListLiteralsAreOne }
{}
