// What a `let` binds a name to.
use cap_grammar::{ArgTok, MorTok, RefTok};
use cap_names::{Items, Name, OpId};

/// What stands behind `let NAME = NAME`: a call of an operation, or a literal between two objects.
#[derive(Debug, Drop)]
pub enum Value {
    Call {
        op: OpId,
        args: Items<ArgTok>,
    },
    Literal {
        src: RefTok,
        tgt: RefTok,
        lit: MorTok,
    },
}

/// What stands behind `let NAME =`: the source or the target of a morphism, or a value in a category.
#[derive(Debug, Drop)]
pub enum Bound {
    Src(RefTok),
    Tgt(RefTok),
    In { cat: Name, value: Value },
}
