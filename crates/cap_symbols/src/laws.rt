// The law of symbols, a call that does nothing.
ghost use Rattle.cap_symbols.specs.Laws.{OneSymbolList};

/// A text has one list of symbols at most, and one of their places.
pub fn law_one_symbol_list()
    ensures { OneSymbolList }
{}
