// The laws of tokens and of the names of operations, each a call that does nothing.
ghost use Rattle.cap_names.specs.Laws.{OneTokenList, TokensAreSlices, TokensOrBadByte, FrontsBeforeBadByte, OneBadByte, OneNumber};

/// A text has one token list at most.
pub fn law_one_token_list()
    ensures { OneTokenList }
{}

/// The tokens of a text are slices of it, in order.
pub fn law_tokens_are_slices()
    ensures { TokensAreSlices }
{}

/// Each text, of any size, has tokens or a first bad byte.
pub fn law_tokens_or_bad_byte()
    ensures { TokensOrBadByte }
{}

/// The fronts of a text that have tokens are those that end at its first bad byte or before it.
pub fn law_fronts_before_bad_byte()
    ensures { FrontsBeforeBadByte }
{}

/// A text has one first bad byte at most.
pub fn law_one_bad_byte()
    ensures { OneBadByte }
{}

/// A name names one operation at most.
pub fn law_one_number()
    ensures { OneNumber }
{}
