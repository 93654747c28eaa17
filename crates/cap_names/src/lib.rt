//! Names, numbers, tokens, literals, lists and faults that the crates above share.
#![tactic(auto)]

mod faults;
mod identifiers;
mod items;
mod laws;
mod lexer;
mod literals;
mod name;
mod operations;
mod places;
mod reasons;
mod token;

pub use faults::{NoMemory, TooLarge};
pub use identifiers::{CatNo, Handle, OpId, RuleNo, SessionNo};
pub use items::Items;
pub use laws::{
    law_fronts_before_bad_byte, law_one_bad_byte, law_one_number, law_one_token_list,
    law_tokens_are_slices, law_tokens_or_bad_byte,
};
pub use lexer::tokens;
pub use literals::{EntryLit, MatLit, MorLit, ObjLit};
pub use name::Name;
pub use operations::{op_by_name, op_name};
pub use places::line_column;
pub use reasons::{BadScript, Reason};
pub use token::{BadByte, PieceKind, Token, TokenFault, TokenKind};
