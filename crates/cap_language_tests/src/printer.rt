// What no clause says: printed text as a user would write it, and that the call succeeds where there is memory.
use cap_grammar::{
    ArgTok, Block, BlockLine, Command, EntryTok, IntTok, Item, MorTok, ObjTok, Over, Placed,
    RefTok, RowsTok, Script, SessionPart, TermTok,
};
use cap_names::{Items, Name, OpId};
use cap_printer::print;
use std::alloc::{AllocError, Global};
use std::process::Abort;
use std::test::Fail;

type Part = Item<ObjTok, MorTok>;

fn name(rt: &impl Abort, word: &[u8]) -> Name {
    Name::new(word).expect(rt, "a word")
}

fn names(rt: &impl Abort, alloc: Global, words: &[&[u8]]) -> Result<Items<Name>, AllocError> {
    let mut names = Vec::new(alloc);
    for word in words {
        names.push(name(rt, word))?;
    }
    Ok(Items::new(names))
}

fn placed<T>(alloc: Global, node: T) -> Placed<T> {
    Placed {
        node,
        places: Items::new(Vec::new(alloc)),
    }
}

fn int(digits: u64) -> IntTok {
    IntTok {
        minus: false,
        digits,
    }
}

fn minus(digits: u64) -> IntTok {
    IntTok {
        minus: true,
        digits,
    }
}

fn whole(rt: &impl Abort, word: &[u8]) -> RefTok {
    RefTok {
        name: name(rt, word),
        part: None,
    }
}

/// A matrix with two rows of two integers.
fn matrix(alloc: Global, cells: [IntTok; 4]) -> Result<RowsTok, AllocError> {
    let [a, b, c, d] = cells;
    let first = vec![in alloc; EntryTok::Int(a), EntryTok::Int(b)]?;
    let second = vec![in alloc; EntryTok::Int(c), EntryTok::Int(d)]?;
    let rows = vec![in alloc; Items::new(first), Items::new(second)]?;
    Ok(RowsTok {
        rows: Items::new(rows),
    })
}

/// A matrix with one row of one entry.
fn cell(alloc: Global, entry: EntryTok) -> Result<RowsTok, AllocError> {
    let row = vec![in alloc; entry]?;
    let rows = vec![in alloc; Items::new(row)]?;
    Ok(RowsTok {
        rows: Items::new(rows),
    })
}

fn term(coeff: IntTok, path: Items<Name>) -> TermTok {
    TermTok { coeff, path }
}

fn check(
    rt: &impl Abort,
    alloc: Global,
    prelude: Vec<Placed<Part>>,
    sessions: Vec<Placed<SessionPart<ObjTok, MorTok>>>,
    expected: &[u8],
) -> Result<(), Fail> {
    let script = Script {
        prelude: Items::new(prelude),
        sessions: Items::new(sessions),
    };
    let Ok(text) = print(alloc, &script) else {
        return Err(Fail::from(AllocError));
    };
    assert_eq!(rt; text.as_slice(), expected);
    Ok(())
}

#[test]
fn commands_and_a_session(rt: HostRuntime) -> Result<(), Fail> {
    let alloc = rt.alloc();
    let category = name(&rt, b"V");
    let mut prelude = Vec::new(alloc);
    prelude.push(placed(
        alloc,
        Item::Category {
            name: category,
            over: Over::Vec(5),
        },
    ))?;
    prelude.push(placed(
        alloc,
        Item::Command(Command::Register {
            cat: category,
            op: OpId(16),
            weight: Some(20),
        }),
    ))?;
    prelude.push(placed(
        alloc,
        Item::Command(Command::Object {
            cat: category,
            name: name(&rt, b"a"),
            lit: ObjTok::Dim(0),
        }),
    ))?;
    prelude.push(placed(
        alloc,
        Item::Command(Command::Let {
            name: name(&rt, b"f"),
            cat: category,
            src: whole(&rt, b"a"),
            tgt: whole(&rt, b"b"),
            lit: MorTok::Rows(matrix(alloc, [int(1), minus(2), int(3), int(0)])?),
        }),
    ))?;
    let part = RefTok {
        name: name(&rt, b"w"),
        part: Some(1),
    };
    let mut commands = Vec::new(alloc);
    commands.push(placed(
        alloc,
        Command::Call {
            name: name(&rt, b"k"),
            cat: category,
            op: OpId(7),
            args: Items::new(vec![in alloc; ArgTok::Int(minus(2)), ArgTok::Ref(part)]?),
        },
    ))?;
    commands.push(placed(
        alloc,
        Command::Tgt {
            name: name(&rt, b"t"),
            of: part,
        },
    ))?;
    let session = SessionPart {
        name: name(&rt, b"main"),
        commands: Items::new(commands),
    };
    let sessions = vec![in alloc; placed(alloc, session)]?;
    check(
        &rt,
        alloc,
        prelude,
        sessions,
        b"category V vec 5\nregister V Kernel 20\nobject V a = 0\nlet f = V a -> b [1 -2; 3 0]\n\
session main\nlet k = V Scale -2 w.1\nlet t = tgt w.1\nend\n",
    )
}

#[test]
fn blocks_and_literals(rt: HostRuntime) -> Result<(), Fail> {
    let alloc = rt.alloc();
    let path = names(&rt, alloc, &[b"x", b"y"])?;
    let lone = names(&rt, alloc, &[b"x"])?;
    let sum = vec![in alloc; term(int(1), path), term(minus(10), lone)]?;
    let quiver = vec![in alloc;
        BlockLine::Relation {
            sum: Items::new(sum)
        },
    ]?;
    let table = vec![in alloc;
        BlockLine::Unit {
            object: name(&rt, b"A"),
            combo: Items::new(Vec::new(alloc))
        },
    ]?;
    let mut prelude = Vec::new(alloc);
    prelude.push(placed(
        alloc,
        Item::Block(Block {
            name: name(&rt, b"Q"),
            prime: 7,
            bound: Some(3),
            objects: names(&rt, alloc, &[b"A", b"B"])?,
            lines: Items::new(quiver),
        }),
    ))?;
    prelude.push(placed(
        alloc,
        Item::Block(Block {
            name: name(&rt, b"T"),
            prime: 2,
            bound: None,
            objects: names(&rt, alloc, &[b"A"])?,
            lines: Items::new(table),
        }),
    ))?;
    let coefficients = vec![in alloc; int(0), minus(1)]?;
    let rho = cell(alloc, EntryTok::Coeffs(Items::new(coefficients)))?;
    prelude.push(placed(
        alloc,
        Item::Command(Command::Object {
            cat: name(&rt, b"F"),
            name: name(&rt, b"q"),
            lit: ObjTok::Relation {
                src: names(&rt, alloc, &[b"A", b"B"])?,
                tgt: names(&rt, alloc, &[])?,
                rho,
            },
        }),
    ))?;
    let of = names(&rt, alloc, &[b"x", b"y"])?;
    let maps = vec![in alloc; (of, cell(alloc, EntryTok::Int(int(1)))?)]?;
    prelude.push(placed(
        alloc,
        Item::Command(Command::Object {
            cat: name(&rt, b"R"),
            name: name(&rt, b"m"),
            lit: ObjTok::Dims {
                dims: Items::new(vec![in alloc; 1, 0]?),
                maps: Some(Items::new(maps)),
            },
        }),
    ))?;
    let empty = RowsTok {
        rows: Items::new(Vec::new(alloc)),
    };
    let parts = vec![in alloc; cell(alloc, EntryTok::Int(int(1)))?, empty]?;
    prelude.push(placed(
        alloc,
        Item::Command(Command::Let {
            name: name(&rt, b"j"),
            cat: name(&rt, b"R"),
            src: whole(&rt, b"m"),
            tgt: whole(&rt, b"m"),
            lit: MorTok::Parts(Items::new(parts)),
        }),
    ))?;
    check(
        &rt,
        alloc,
        prelude,
        Vec::new(alloc),
        b"quiver Q prime 7 bound 3\nobjects A B\nrelation 1 x*y + -10 x\nend\n\
table T prime 2\nobjects A\nunit A = 0\nend\n\
object F q = [A B] -> [] [(0 -1)]\nobject R m = dims 1 0 maps x*y = [1]\nlet j = R m -> m {[1] []}\n",
    )
}
