//! The script language: its tree, its parser and its printer.
#![tactic(auto)]

mod fault;
mod parsing;
mod printing;

pub use cap_grammar::{
    ArgTok, Block, BlockLine, Command, EntryTok, IntTok, Item, MorTok, ObjTok, Over, Place, Placed,
    RefTok, RowsTok, Script, SessionPart, TermTok,
};
pub use fault::ScriptFault;
pub use parsing::parse;
pub use printing::print;
