// The law of sessions at once, a call that does nothing.
ghost use Rattle.cap_thread_laws.specs.Laws.{RunsAtOnceAccount};

/// The report of a run whose sessions took turns accounts for its script: whoever came first, each session's events stand in
/// the histories each once and in its order, and the histories have no others.
pub fn law_runs_at_once_account()
    ensures { RunsAtOnceAccount }
{}
