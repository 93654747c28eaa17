// The law of registrations, a call that does nothing.
ghost use Rattle.std.specs.Prelude.{ℕ, List};
ghost use Rattle.cap_ops.specs.declared.plans.Kind.{Kind};
ghost use Rattle.cap_registered.specs.Laws.{GoesPartByPart};

/// A register command is accepted where the category is not final, its kind offers the operation and it is not registered; no other part changes anything.
pub fn law_registers_are_accepted_once()
    ensures { (kind : Kind) (name : List ℕ) (op : ℕ) → GoesPartByPart kind name op }
{}
