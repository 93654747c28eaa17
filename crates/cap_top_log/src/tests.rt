// What no clause says: the log of a small run is written where there is memory.
use crate::log_text;
use cap_checked::CheckedObj;
use cap_data::{MorData, ObjData};
use cap_field::Field;
use cap_grammar::{Item, Over, Placed};
use cap_history::{Entry, Event, HeldPlan, Reply, Told};
use cap_matrix::Matrix;
use cap_names::{CatNo, Handle, Items, MorLit, Name, OpId, RuleNo, SessionNo};
use cap_ops::{Arg, Arrow, Choice, Key, Out, Plan, PrimOut, Value};
use cap_report::{History, Report};
use std::alloc::{AllocError, Global};
use std::process::Abort;
use std::test::Fail;

/// A list of one.
fn single<T: Drop>(rt: &impl Abort, alloc: Global, item: T) -> Items<T> {
    let mut items = Vec::new(alloc);
    items
        .push(item)
        .map_err(|_| "no room")
        .expect(rt, "room for one");
    Items::new(items)
}

/// The identity of the object with handle 0, of dimension 2 over the field with 5 elements.
fn identity(rt: &impl Abort, alloc: Global) -> Arrow<MorData> {
    let field = Field::from_prime(5).expect(rt, "a prime");
    Arrow {
        src: Handle(0),
        tgt: Handle(0),
        value: MorData::Mat(Matrix::identity(alloc, field, 2).expect(rt, "room for the matrix")),
    }
}

/// Kernel of the identity.
fn kernel(rt: &impl Abort, alloc: Global) -> Key<MorData> {
    Key {
        op: OpId(16),
        args: single(rt, alloc, Arg::Mor(identity(rt, alloc))),
    }
}

/// What is kept for a key.
fn told(rt: &impl Abort, alloc: Global) -> Told<ObjData, MorData> {
    Told {
        value: Value::Many(single(rt, alloc, identity(rt, alloc))),
        objects: Items::new(Vec::new(alloc)),
    }
}

/// A result is put for the kernel.
fn put(rt: &impl Abort, alloc: Global) -> Event<ObjData, MorData> {
    let key = kernel(rt, alloc);
    let fresh = Items::new(Vec::new(alloc));
    let out = PrimOut {
        fresh,
        out: Out::Nothing,
    };
    Event::Put { key, out }
}

/// A category that offers nothing is final.
fn last(rt: &impl Abort, alloc: Global) -> Reply<ObjData, MorData> {
    let plan = Plan {
        choices: [Choice::Missing; 44],
        bounds: [0; 44],
    };
    Reply::Final(HeldPlan::new(alloc, plan).expect(rt, "room for the plan"))
}

/// The log of a run: the category V with this one entry of session 1.
fn log(
    rt: &impl Abort,
    alloc: Global,
    event: Event<ObjData, MorData>,
    reply: Reply<ObjData, MorData>,
) -> Result<Vec<u8>, AllocError> {
    let name = Name::new(b"V").expect(rt, "a name");
    let item: Item<CheckedObj, MorLit> = Item::Category {
        name,
        over: Over::Vec(5),
    };
    let part = Placed {
        node: item,
        places: Items::new(Vec::new(alloc)),
    };
    let prelude = single(rt, alloc, part);
    let entry = Entry {
        session: SessionNo(1),
        event,
        reply,
    };
    let history = History {
        cat: CatNo(0),
        entries: single(rt, alloc, entry),
    };
    let report = Report {
        histories: single(rt, alloc, history),
        traces: Items::new(Vec::new(alloc)),
        plans: Items::new(Vec::new(alloc)),
    };
    Ok(log_text(alloc, prelude.as_slice(), &report).expect(rt, "memory"))
}

#[test]
fn each_event_has_a_line_with_its_reply(rt: HostRuntime) -> Result<(), Fail> {
    let alloc = rt.alloc();
    let name = Name::new(b"a").ok_or("a name")?;
    let object = ObjData::Dim(2);
    let (op, weight) = (OpId(16), 20);
    for (event, reply, line) in [
        (
            Event::Register { op, weight },
            Reply::Done,
            "register Kernel 20 -> done",
        ),
        (Event::Finalise, last(&rt, alloc), "finalise -> final"),
        (
            Event::Declare { name, object },
            Reply::Object(Handle(0)),
            "declare a -> #0",
        ),
        (
            Event::Ask(kernel(&rt, alloc)),
            Reply::Miss(Choice::Rule(RuleNo(7))),
            "ask Kernel (#0 -> #0 [1 0; 0 1]) -> miss rule 7",
        ),
        (
            put(&rt, alloc),
            Reply::Kept(told(&rt, alloc)),
            "put Kernel (#0 -> #0 [1 0; 0 1]) -> kept #0 -> #0 [1 0; 0 1]",
        ),
        (Event::PlanOf, Reply::NotFinal, "plan -> NotFinal"),
    ] {
        let all = format!(in alloc; "log V\n0 s1 {line}\n")?;
        let text = log(&rt, alloc, event, reply)?;
        assert!(rt; text.as_slice() == all.as_str().as_bytes());
    }
    Ok(())
}
