// The laws of scripts and faults of texts, each a call that does nothing.
ghost use Rattle.cap_script_laws.specs.Laws.{OneScript, NoScriptWithFault, OneFault, ScriptOrCause};

/// A text is one of at most one script, places included.
pub fn law_one_script()
    ensures { OneScript }
{}

/// No text of a script has a fault.
pub fn law_script_or_fault()
    ensures { NoScriptWithFault }
{}

/// A text has one fault at most: its place and its reason are determined.
pub fn law_one_fault()
    ensures { OneFault }
{}

/// Each text, of any size, is one of a script or has a fault.
pub fn law_script_or_cause()
    ensures { ScriptOrCause }
{}
