// The laws of chains and of whole runs, each a call that does nothing.
ghost use Rattle.cap_traces.specs.Laws.{ChainsDo, ChainsGoOn, ItemsGoOn, RunsAccount, SessionsGoOn};

/// The events and answers of commands that run one after another are what the accounts say of them.
pub fn law_chains_do()
    ensures { ChainsDo }
{}

/// Commands that run one after another, and one more behind them, do so too.
pub fn law_chains_go_on()
    ensures { ChainsGoOn }
{}

/// Parts of a prelude that run one after another, and one more behind them, do so too.
pub fn law_items_go_on()
    ensures { ItemsGoOn }
{}

/// Sessions that run one after another, and one more behind them, do so too.
pub fn law_sessions_go_on()
    ensures { SessionsGoOn }
{}

/// The report of a whole run accounts for its script, and in each history the sessions stand one after another.
pub fn law_runs_account()
    ensures { RunsAccount }
{}
