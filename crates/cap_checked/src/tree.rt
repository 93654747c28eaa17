// Scripts with numbers in place of names. Lists are in the order of the text.
use cap_grammar::{Item, MorTok, ObjTok, Placed, SessionPart};
use cap_names::{Items, MatLit, MorLit, ObjLit};

/// An object literal. One of dimensions over a quiver has its maps at paths, as arrow numbers from 0.
#[derive(Debug, PartialEq, Eq, Drop)]
pub enum CheckedObj {
    Lit(ObjLit),
    Paths {
        dims: Items<u32>,
        maps: Items<(Items<u32>, MatLit)>,
    },
}

/// A script with numbers in place of the names of table objects, basis elements and arrows.
#[derive(Debug, PartialEq, Eq, Drop)]
pub struct Checked {
    pub prelude: Items<Placed<Item<CheckedObj, MorLit>>>,
    pub sessions: Items<Placed<SessionPart<CheckedObj, MorLit>>>,
}

/// What stands before the sessions, with places.
pub type Part = Placed<Item<ObjTok, MorTok>>;
