// That the call succeeds where there is memory, and what a user would write: a number 0 and an empty combination are both `0`.
use cap_grammar::{
    Block, BlockLine, Command, Fixed, IntTok, Item, MorTok, ObjTok, Placed, Script, SessionPart,
    Symbol, TermTok,
};
use cap_names::{Items, Name};
use cap_spelling::symbols_of;
use std::alloc::Global;
use std::process::Abort;
use std::test::Fail;

fn name(rt: &impl Abort, word: &[u8]) -> Name {
    Name::new(word).expect(rt, "a word")
}

fn placed<T>(alloc: Global, node: T) -> Placed<T> {
    Placed {
        node,
        places: Items::new(Vec::new(alloc)),
    }
}

#[test]
fn a_table_and_a_session(rt: HostRuntime) -> Result<(), Fail> {
    let alloc = rt.alloc();
    let object = name(&rt, b"A");
    let coeff = IntTok {
        minus: true,
        digits: 0,
    };
    let path = Items::new(vec![in alloc; name(&rt, b"e")]?);
    let combo = Items::new(vec![in alloc; TermTok { coeff, path }]?);
    let empty = Items::new(Vec::new(alloc));
    let mut lines = Vec::new(alloc);
    lines.push(BlockLine::Unit {
        object,
        combo: empty,
    })?;
    lines.push(BlockLine::Unit { object, combo })?;
    let block: Item<ObjTok, MorTok> = Item::Block(Block {
        name: name(&rt, b"T"),
        prime: 2,
        bound: None,
        objects: Items::new(vec![in alloc; object]?),
        lines: Items::new(lines),
    });
    let plan = Command::Plan {
        cat: name(&rt, b"V"),
    };
    let session = SessionPart {
        name: name(&rt, b"s"),
        commands: Items::new(vec![in alloc; placed(alloc, plan)]?),
    };
    let script = Script {
        prelude: Items::new(vec![in alloc; placed(alloc, block)]?),
        sessions: Items::new(vec![in alloc; placed(alloc, session)]?),
    };
    let symbols = symbols_of(alloc, &script).expect(&rt, "memory");
    let newline = Symbol::Fixed(Fixed::Newline);
    let unit = Symbol::Fixed(Fixed::Unit);
    let equals = Symbol::Fixed(Fixed::Equals);
    let end = Symbol::Fixed(Fixed::End);
    let a = Symbol::Name(object);
    let expected = [
        Symbol::Fixed(Fixed::Table),
        Symbol::Name(name(&rt, b"T")),
        Symbol::Fixed(Fixed::Prime),
        Symbol::Number(2),
        newline,
        Symbol::Fixed(Fixed::Objects),
        a,
        newline,
        unit,
        a,
        equals,
        Symbol::Nought,
        newline,
        unit,
        a,
        equals,
        Symbol::Fixed(Fixed::Minus),
        Symbol::Nought,
        Symbol::Name(name(&rt, b"e")),
        newline,
        end,
        newline,
        Symbol::Fixed(Fixed::Session),
        Symbol::Name(name(&rt, b"s")),
        newline,
        Symbol::Fixed(Fixed::Plan),
        Symbol::Name(name(&rt, b"V")),
        newline,
        end,
        newline,
    ];
    assert_eq!(rt; symbols.as_slice(), expected.as_slice());
    Ok(())
}
