//! The script language: its symbols, its tree and its grammar.
#![tactic(auto)]

mod symbol;
mod tree;

pub use symbol::{Fixed, Symbol};
pub use tree::{
    ArgTok, Block, BlockLine, Command, EntryTok, IntTok, Item, MorTok, ObjTok, Over, Place, Placed,
    RefTok, RowsTok, Script, SessionPart, TermTok,
};
