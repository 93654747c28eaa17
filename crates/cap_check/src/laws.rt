// The law of checked forms, a call that does nothing.
ghost use Rattle.cap_check.specs.Forms.{FormsAreRanged};

/// Before the sessions of a checked script each weight is 1 to 1,000,000.
pub fn law_form_weights()
    ensures { FormsAreRanged }
{}
