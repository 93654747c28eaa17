// The laws of one report, each a call that does nothing.
ghost use Rattle.cap_one_report.specs.Laws.{OneReport, OneWholeReport, RunsAreInTurn, OneRun};

/// Two reports that account for a script, of sessions that run one after another, say the same but for the sizes that
/// refusals of matrices past the limits name.
pub fn law_one_report()
    ensures { OneReport }
{}

/// Where no refusal names a size, they are one.
pub fn law_one_whole_report()
    ensures { OneWholeReport }
{}

/// The report of a whole run on one thread is one of sessions that run one after another.
pub fn law_runs_are_in_turn()
    ensures { RunsAreInTurn }
{}

/// Two whole runs of a script on one thread report the same but for sizes.
pub fn law_one_run()
    ensures { OneRun }
{}
