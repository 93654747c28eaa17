// What no clause says: worked examples, and that a call which wants memory succeeds.
use cap_faults::{CheckFault, faultless};
use cap_grammar::{ArgTok, Command, Item, MorTok, ObjTok, Over, Place, Placed, RefTok, Script};
use cap_names::{BadScript, Items, Name, OpId, Reason};
use std::alloc::{AllocError, Global};
use std::process::Abort;
use std::test::Fail;

fn name(rt: &impl Abort, text: &str) -> Name {
    let word = Name::new(text.as_bytes());
    assert!(rt; word.is_some());
    word.unwrap()
}

/// A node at these columns of a line.
fn placed(
    alloc: Global,
    node: Item<ObjTok, MorTok>,
    line: u32,
    columns: &[u32],
) -> Result<Placed<Item<ObjTok, MorTok>>, AllocError> {
    let mut places = Vec::new(alloc);
    for column in columns {
        places.push(Place {
            line,
            column: *column,
        })?;
    }
    Ok(Placed {
        node,
        places: Items::new(places),
    })
}

fn script(alloc: Global, parts: Vec<Placed<Item<ObjTok, MorTok>>>) -> Script {
    Script {
        prelude: Items::new(parts),
        sessions: Items::new(Vec::new(alloc)),
    }
}

fn told(line: u32, column: u32, reason: Reason) -> Result<(), CheckFault> {
    Err(CheckFault::Bad(BadScript {
        line,
        column,
        reason,
    }))
}

/// `category V vec PRIME` and `object V A = DIM`.
fn category_and_object(
    rt: &impl Abort,
    alloc: Global,
    prime: u64,
    dim: u64,
) -> Result<Vec<Placed<Item<ObjTok, MorTok>>>, AllocError> {
    let cat = name(rt, "V");
    let over = Over::Vec(prime);
    let category = Item::Category { name: cat, over };
    let lit = ObjTok::Dim(dim);
    let object = Item::Command(Command::Object {
        cat,
        name: name(rt, "A"),
        lit,
    });
    let mut parts = Vec::new(alloc);
    parts.push(placed(alloc, category, 1, &[1, 10, 12, 16, 19])?)?;
    parts.push(placed(alloc, object, 2, &[1, 8, 10, 12, 14, 18])?)?;
    Ok(parts)
}

#[test]
fn primes_and_dimensions_are_in_their_tables(rt: HostRuntime) -> Result<(), Fail> {
    let alloc = rt.alloc();
    let table = [
        (251, 2048, Ok(())),
        (9, 2048, told(1, 16, Reason::Prime)),
        (9, 2049, told(1, 16, Reason::Prime)),
        (5, 2049, told(2, 14, Reason::Limit)),
    ];
    for (prime, dim, answer) in table {
        let parts = category_and_object(&rt, alloc, prime, dim)?;
        assert!(rt; faultless(alloc, &script(alloc, parts)) == answer);
    }
    Ok(())
}

#[test]
fn names_and_sorts_of_arguments(rt: HostRuntime) -> Result<(), Fail> {
    let alloc = rt.alloc();
    let table = [
        (1, "A", None, Ok(())),
        (1, "B", None, told(3, 20, Reason::Known)),
        (1, "A", Some(1), told(3, 20, Reason::Sort)),
        (16, "A", None, told(3, 20, Reason::Sort)),
        (11, "A", None, told(3, 21, Reason::Sort)),
        (10, "B", None, told(3, 20, Reason::Known)),
        (10, "A", None, told(3, 20, Reason::Sort)),
    ];
    for (op, argument, part, answer) in table {
        let mut parts = category_and_object(&rt, alloc, 5, 1)?;
        let reference = RefTok {
            name: name(&rt, argument),
            part,
        };
        let mut args = Vec::new(alloc);
        args.push(ArgTok::Ref(reference))?;
        let call = Item::Command(Command::Call {
            name: name(&rt, "f"),
            cat: name(&rt, "V"),
            op: OpId(op),
            args: Items::new(args),
        });
        parts.push(placed(alloc, call, 3, &[1, 5, 7, 9, 11, 20, 21])?)?;
        assert!(rt; faultless(alloc, &script(alloc, parts)) == answer);
    }
    Ok(())
}
