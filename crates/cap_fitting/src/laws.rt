// The laws of scripts that fit, each a call that does nothing.
ghost use Rattle.cap_fitting.specs.Laws.{FormsFit, LiteralsOfFormsFit, GivenAreWritten, FreeWhereFaultless, SoundWhereFits};

/// In a checked script each command fits where it stands: its categories and the values of its references are there, its arguments have their sorts, and the name that it binds is new.
pub fn law_forms_fit()
    ensures { FormsFit }
{}

/// In categories of matrices each object literal is a dimension of at most 2,048, and each morphism literal a matrix of integers of at most 16 digits.
pub fn law_literals_fit()
    ensures { LiteralsOfFormsFit }
{}

/// A command of some text has no fault exactly where there is room for it, it fits, and its literal has none.
pub fn law_free_where_faultless()
    ensures written { GivenAreWritten }
    ensures free { FreeWhereFaultless }
{}

/// A script of some text has no fault exactly where its checked form fits and its blocks and literals have none.
pub fn law_sound_where_fits()
    ensures { SoundWhereFits }
{}
