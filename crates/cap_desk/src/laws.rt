// The law of own entries, a call that does nothing.
ghost use Rattle.cap_desk.specs.Woven.{WovenAlone};

use cap_ops::Datum;

/// Where nobody else puts entries, what was seen grows by one's own entries alone.
pub fn law_woven_alone<O: Datum, M: Datum>()
    ensures { WovenAlone O M }
{}
