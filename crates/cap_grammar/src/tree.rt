// The tree of a script. Lists are in the order of the text.
use cap_names::{Items, Name, OpId};

/// A place of a text: line and column in bytes, both from 1.
#[derive(Debug, Clone, Copy, PartialEq, Eq)]
pub struct Place {
    pub line: u32,
    pub column: u32,
}

/// A node with the place of each of its tokens, its LFs included.
#[derive(Debug, PartialEq, Eq, Drop)]
pub struct Placed<T> {
    pub node: T,
    pub places: Items<Place>,
}

/// A script: what stands before the sessions, and the sessions. `O` and `M` are the literals of objects and morphisms.
#[derive(Debug, PartialEq, Eq, Drop)]
pub struct Script {
    pub prelude: Items<Placed<Item<ObjTok, MorTok>>>,
    pub sessions: Items<Placed<SessionPart<ObjTok, MorTok>>>,
}

/// A session. Its own tokens are those of its first line and of its `end` line.
#[derive(Debug, PartialEq, Eq, Drop)]
pub struct SessionPart<O, M> {
    pub name: Name,
    pub commands: Items<Placed<Command<O, M>>>,
}

/// What stands before the sessions.
#[derive(Debug, PartialEq, Eq, Drop)]
pub enum Item<O, M> {
    Block(Block),
    Category { name: Name, over: Over },
    Command(Command<O, M>),
}

/// The kind of a category: matrices over a prime field, or the additive closure, the Freyd category or the functors over a table or quiver.
#[derive(Debug, Clone, Copy, PartialEq, Eq)]
pub enum Over {
    Vec(u64),
    Add(Name),
    Freyd(Name),
    Rep(Name),
}

/// A multiplication table, or a quiver with relations: a quiver has a bound of its paths' lengths, and a table has none.
#[derive(Debug, PartialEq, Eq, Drop)]
pub struct Block {
    pub name: Name,
    pub prime: u64,
    pub bound: Option<u64>,
    pub objects: Items<Name>,
    pub lines: Items<BlockLine>,
}

/// A line of a block. The combination `0` is the empty list.
#[derive(Debug, PartialEq, Eq, Drop)]
pub enum BlockLine {
    Basis {
        name: Name,
        src: Name,
        tgt: Name,
    },
    Unit {
        object: Name,
        combo: Items<TermTok>,
    },
    Product {
        left: Name,
        right: Name,
        combo: Items<TermTok>,
    },
    Arrow {
        name: Name,
        src: Name,
        tgt: Name,
    },
    Relation {
        sum: Items<TermTok>,
    },
}

/// An integer: its sign, and its digits by value.
#[derive(Debug, Clone, Copy, PartialEq, Eq)]
pub struct IntTok {
    pub minus: bool,
    pub digits: u64,
}

/// A term of a combination or of a sum of paths.
#[derive(Debug, PartialEq, Eq, Drop)]
pub struct TermTok {
    pub coeff: IntTok,
    pub path: Items<Name>,
}

/// A reference to a value, or to a part of a tuple, from 1.
#[derive(Debug, Clone, Copy, PartialEq, Eq)]
pub struct RefTok {
    pub name: Name,
    pub part: Option<u64>,
}

/// An argument of an operation.
#[derive(Debug, Clone, Copy, PartialEq, Eq)]
pub enum ArgTok {
    Ref(RefTok),
    Int(IntTok),
}

/// An entry of a matrix literal: an integer, or coefficients in a basis.
#[derive(Debug, PartialEq, Eq, Drop)]
pub enum EntryTok {
    Int(IntTok),
    Coeffs(Items<IntTok>),
}

/// A matrix literal: its rows.
#[derive(Debug, PartialEq, Eq, Drop)]
pub struct RowsTok {
    pub rows: Items<Items<EntryTok>>,
}

/// An object literal.
#[derive(Debug, PartialEq, Eq, Drop)]
pub enum ObjTok {
    Dim(u64),
    Parts(Items<Name>),
    Relation {
        src: Items<Name>,
        tgt: Items<Name>,
        rho: RowsTok,
    },
    Dims {
        dims: Items<u64>,
        maps: Option<Items<(Items<Name>, RowsTok)>>,
    },
}

/// A morphism literal: a matrix, or one for each object of a table.
#[derive(Debug, PartialEq, Eq, Drop)]
pub enum MorTok {
    Rows(RowsTok),
    Parts(Items<RowsTok>),
}

/// A command.
#[derive(Debug, PartialEq, Eq, Drop)]
pub enum Command<O, M> {
    Register {
        cat: Name,
        op: OpId,
        weight: Option<u64>,
    },
    Finalise {
        cat: Name,
    },
    Plan {
        cat: Name,
    },
    Object {
        cat: Name,
        name: Name,
        lit: O,
    },
    Src {
        name: Name,
        of: RefTok,
    },
    Tgt {
        name: Name,
        of: RefTok,
    },
    Let {
        name: Name,
        cat: Name,
        src: RefTok,
        tgt: RefTok,
        lit: M,
    },
    Call {
        name: Name,
        cat: Name,
        op: OpId,
        args: Items<ArgTok>,
    },
}
