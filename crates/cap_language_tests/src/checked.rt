// What no clause says: that calls which want memory succeed, at worked examples.

use cap_checked::{CheckedObj, checked};
use cap_grammar::{
    Block, BlockLine, Command, EntryTok, IntTok, Item, MorTok, ObjTok, Over, Place, Placed, RefTok,
    RowsTok, Script, SessionPart,
};
use cap_names::{EntryLit, Items, MatLit, MorLit, Name, ObjLit};
use std::alloc::{AllocError, Global};
use std::test::Fail;

/// The matrix literal `[-3]`.
fn minus_three(alloc: Global) -> Result<RowsTok, AllocError> {
    let entry = EntryTok::Int(IntTok {
        minus: true,
        digits: 3,
    });
    let row = Items::new(vec![in alloc; entry]?);
    let rows = Items::new(vec![in alloc; row]?);
    Ok(RowsTok { rows })
}

/// Two arrows against one another, between two objects.
fn quiver(
    alloc: Global,
    name: Name,
    objects: (Name, Name),
    arrows: (Name, Name),
) -> Result<Block, AllocError> {
    let there = BlockLine::Arrow {
        name: arrows.0,
        src: objects.0,
        tgt: objects.1,
    };
    let back = BlockLine::Arrow {
        name: arrows.1,
        src: objects.1,
        tgt: objects.0,
    };
    let objects = Items::new(vec![in alloc; objects.0, objects.1]?);
    let lines = Items::new(vec![in alloc; there, back]?);
    Ok(Block {
        name,
        prime: 5,
        bound: Some(2),
        objects,
        lines,
    })
}

/// The functor `dims 1 2` with a map `[-3]` at the path of the two names.
fn functor(alloc: Global, first: Name, second: Name) -> Result<ObjTok, AllocError> {
    let rows = minus_three(alloc)?;
    let path = Items::new(vec![in alloc; first, second]?);
    let maps = Items::new(vec![in alloc; (path, rows)]?);
    let dims = Items::new(vec![in alloc; 1, 2]?);
    Ok(ObjTok::Dims {
        dims,
        maps: Some(maps),
    })
}

fn nowhere(alloc: Global) -> Items<Place> {
    Items::new(Vec::new(alloc))
}

/// A script of the block, a category over it, an object, and a session with one morphism.
fn script(
    alloc: Global,
    block: Block,
    category: (Name, Over),
    object: (Name, ObjTok),
    matrix: RowsTok,
) -> Result<Script, AllocError> {
    let (cat, over) = category;
    let (name, lit) = object;
    let of = RefTok { name, part: None };
    let first = Placed {
        node: Item::Block(block),
        places: nowhere(alloc),
    };
    let second = Placed {
        node: Item::Category { name: cat, over },
        places: nowhere(alloc),
    };
    let third = Placed {
        node: Item::Command(Command::Object { cat, name, lit }),
        places: nowhere(alloc),
    };
    let prelude = Items::new(vec![in alloc; first, second, third]?);
    let command = Placed {
        node: Command::Let {
            name: cat,
            cat,
            src: of,
            tgt: of,
            lit: MorTok::Rows(matrix),
        },
        places: nowhere(alloc),
    };
    let commands = Items::new(vec![in alloc; command]?);
    let session = Placed {
        node: SessionPart { name, commands },
        places: nowhere(alloc),
    };
    let sessions = Items::new(vec![in alloc; session]?);
    Ok(Script { prelude, sessions })
}

/// The matrix `[-3]`.
fn minus_three_lit(alloc: Global) -> Result<MatLit, AllocError> {
    let row = Items::new(vec![in alloc; EntryLit::Int(-3)]?);
    let rows = Items::new(vec![in alloc; row]?);
    Ok(MatLit { rows })
}

#[test]
fn maps_over_a_quiver_are_at_paths(rt: HostRuntime) -> Result<(), Fail> {
    let alloc = rt.alloc();
    let x = Name::new(b"x").ok_or("a name")?;
    let y = Name::new(b"y").ok_or("a name")?;
    let a = Name::new(b"a").ok_or("a name")?;
    let b = Name::new(b"b").ok_or("a name")?;
    let block = quiver(alloc, a, (x, y), (a, b))?;
    let lit = functor(alloc, b, a)?;
    let script = script(
        alloc,
        block,
        (y, Over::Rep(a)),
        (x, lit),
        minus_three(alloc)?,
    )?;
    let checked = checked(alloc, script).ok().ok_or("memory")?;
    let path = Items::new(vec![in alloc; 1, 0]?);
    let maps = Items::new(vec![in alloc; (path, minus_three_lit(alloc)?)]?);
    let dims = Items::new(vec![in alloc; 1, 2]?);
    let want = Item::Command(Command::Object {
        cat: y,
        name: x,
        lit: CheckedObj::Paths { dims, maps },
    });
    let parts = checked.prelude.as_slice();
    assert_eq!(rt; parts.len(), 3);
    assert!(rt; parts.get(2).is_some_and(|part| part.node == want));
    Ok(())
}

#[test]
fn objects_of_a_sum_are_numbers(rt: HostRuntime) -> Result<(), Fail> {
    let alloc = rt.alloc();
    let x = Name::new(b"x").ok_or("a name")?;
    let y = Name::new(b"y").ok_or("a name")?;
    let a = Name::new(b"a").ok_or("a name")?;
    let b = Name::new(b"b").ok_or("a name")?;
    let block = quiver(alloc, a, (x, y), (a, b))?;
    let lit = ObjTok::Parts(Items::new(vec![in alloc; y, x]?));
    let script = script(
        alloc,
        block,
        (y, Over::Add(a)),
        (x, lit),
        minus_three(alloc)?,
    )?;
    let checked = checked(alloc, script).ok().ok_or("memory")?;
    let want = Item::Command(Command::Object {
        cat: y,
        name: x,
        lit: CheckedObj::Lit(ObjLit::Parts(Items::new(vec![in alloc; 1, 0]?))),
    });
    assert!(rt;
        checked
            .prelude
            .as_slice()
            .get(2)
            .is_some_and(|part| part.node == want)
    );
    let of = RefTok {
        name: x,
        part: None,
    };
    let want = Command::Let {
        name: y,
        cat: y,
        src: of,
        tgt: of,
        lit: MorLit::Rows(minus_three_lit(alloc)?),
    };
    let sessions = checked.sessions.as_slice();
    assert_eq!(rt; sessions.len(), 1);
    let session = sessions.first().ok_or("a session")?;
    let commands = session.node.commands.as_slice();
    assert!(rt; commands.first().is_some_and(|command| command.node == want));
    Ok(())
}
