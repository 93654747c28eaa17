// The law of the readers.
ghost use Rattle.cap_literals.specs.Readers.{PartsAreRead};

/// Each part of a command is read as the grammar spells it, and where reading fails is the first fault. The call does nothing.
pub fn law_parts_are_read()
    ensures { PartsAreRead }
{}
