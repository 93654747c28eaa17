// The laws of scripts that stand in some text, each a call that does nothing.
ghost use Rattle.cap_sound.specs.Laws.{PartsHavePlaces, CommandsHavePlaces, SessionsHavePlaces, EveryMarkIsTold, SoundWhereFree, WeightsAreRanged, NoNumberIsClamped, DimensionsAreRanged, AllFits};

/// Each mark that is told of a part, a command or a session has a place of its own.
pub fn law_places()
    ensures parts { PartsHavePlaces }
    ensures commands { CommandsHavePlaces }
    ensures sessions { SessionsHavePlaces }
{}

/// The faults of a script that stands in some text are all its marks that tell a reason.
pub fn law_every_mark_is_told()
    ensures { EveryMarkIsTold }
{}

/// Such a script has no fault exactly where all its marks are free.
pub fn law_sound_where_free()
    ensures { SoundWhereFree }
{}

/// Before the sessions of such a script without faults, each weight is 1 to 1,000,000.
pub fn law_weights()
    ensures { WeightsAreRanged }
{}

/// In the checked form of such a script no number is held to its type.
pub fn law_no_number_is_clamped()
    ensures { NoNumberIsClamped }
{}

/// Each dimension that such a script writes is at most 2,048.
pub fn law_dimensions()
    ensures { DimensionsAreRanged }
{}

/// Such a script has blocks within their limits, categories over what is there, and literals of the form that their category asks for.
pub fn law_fits()
    ensures { AllFits }
{}
