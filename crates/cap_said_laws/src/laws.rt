// The laws of what is said of an input, and of how a run ends, each a call that does nothing.
ghost use Rattle.std.specs.Prelude.{true, false};
ghost use Rattle.cap_judge.specs.Judged.{AreAccepted};
ghost use Rattle.cap_top.specs.Judged.{IsPlanJudged, IsCheckJudged};
ghost use Rattle.cap_top.specs.Run.{IsThreadsRun, IsPlainRun, IsPlanRun, IsCheckRun, IsUsageRun};
ghost use Rattle.cap_said_laws.specs.Laws.{OneCertificates, SaysOneThing, PlainSaysOneThing, TellsFaults, IsComplete, IsBuiltText};

/// The certificates of a prelude are one text at most.
pub fn law_certificates_are_determined()
    ensures { OneCertificates }
{}

/// What `cap plan` says of an input, its text and its report are determined by the input.
pub fn law_plan_says_one_thing()
    ensures { SaysOneThing IsPlanJudged }
{}

/// What `cap plain` says of an input and its report are determined by the input, but for the sizes that refusals of matrices
/// past the limits name; where no refusal names one, so is every byte that it writes.
pub fn law_plain_says_one_thing()
    ensures { PlainSaysOneThing }
{}

/// What `cap check` says of an input, its text and its report are determined by the input.
pub fn law_check_says_one_thing()
    ensures { SaysOneThing IsCheckJudged }
{}

/// A run ends with ReadFault exactly where the source's count of faults rose, and with WriteFault exactly
/// where the sink's did, as long as the counts are below 2^64 - 1.
pub fn law_status_tells_faults()
    ensures run { TellsFaults (IsThreadsRun false) }
    ensures log { TellsFaults (IsThreadsRun true) }
    ensures plain { TellsFaults IsPlainRun }
    ensures plan { TellsFaults IsPlanRun }
    ensures check { TellsFaults IsCheckRun }
    ensures usage { TellsFaults IsUsageRun }
{}

/// Where the source tells its bytes, at most 1,048,576, no call of source or sink fails, and the bytes are a script without faults
/// whose kinds are built (for `check`: certificates without a false line), a command ends with Ok, unless memory runs out.
pub fn law_commands_are_complete()
    ensures run { IsComplete IsBuiltText (IsThreadsRun false) }
    ensures log { IsComplete IsBuiltText (IsThreadsRun true) }
    ensures plain { IsComplete IsBuiltText IsPlainRun }
    ensures plan { IsComplete IsBuiltText IsPlanRun }
    ensures check { IsComplete AreAccepted IsCheckRun }
{}
