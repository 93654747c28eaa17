// What no clause says: the text of a small run is written where there is memory.
use crate::report_text;
use cap_checked::CheckedObj;
use cap_data::{MorData, ObjData};
use cap_field::Field;
use cap_grammar::{Command, Item, Over, Placed, SessionPart};
use cap_history::{Entry, Event, Reply};
use cap_matrix::Matrix;
use cap_names::{CatNo, Handle, Items, Name, ObjLit, OpId, SessionNo};
use cap_ops::{Arrow, Mismatch};
use cap_report::{Done, History, LineAnswer, LineRefusal, Report, Trace};
use std::alloc::{AllocError, Global};
use std::process::Abort;
use std::test::Fail;

/// A list of one.
fn single<T: Drop>(rt: &impl Abort, alloc: Global, item: T) -> Items<T> {
    let mut items = Vec::new(alloc);
    items
        .push(item)
        .map_err(|_| "no room")
        .expect(rt, "room for one");
    Items::new(items)
}

fn placed<T>(alloc: Global, node: T) -> Placed<T> {
    Placed {
        node,
        places: Items::new(Vec::new(alloc)),
    }
}

/// The history of a category with an object of dimension 2 and one of dimension 1.
fn history(rt: &impl Abort, alloc: Global) -> Result<History<ObjData, MorData>, AllocError> {
    let name = Name::new(b"a").expect(rt, "a name");
    let mut entries = Vec::new(alloc);
    for handle in 0..2u32 {
        entries.push(Entry {
            session: SessionNo(0),
            event: Event::Declare {
                name,
                object: ObjData::Dim(2 - handle),
            },
            reply: Reply::Object(Handle(handle)),
        })?;
    }
    Ok(History {
        cat: CatNo(0),
        entries: Items::new(entries),
    })
}

/// The text of a run: the category V, its first object, and a session with a call that has this answer.
fn text(
    rt: &impl Abort,
    alloc: Global,
    answer: LineAnswer<MorData>,
) -> Result<Vec<u8>, AllocError> {
    let v = Name::new(b"V").expect(rt, "a name");
    let a = Name::new(b"a").expect(rt, "a name");
    let e = Name::new(b"e").expect(rt, "a name");
    let mut prelude = Vec::new(alloc);
    prelude.push(placed(
        alloc,
        Item::Category {
            name: v,
            over: Over::Vec(5),
        },
    ))?;
    let object = Command::Object {
        cat: v,
        name: a,
        lit: CheckedObj::Lit(ObjLit::Dim(2)),
    };
    prelude.push(placed(alloc, Item::Command(object)))?;
    let call = Command::Call {
        name: e,
        cat: v,
        op: OpId(1),
        args: Items::new(Vec::new(alloc)),
    };
    let session = SessionPart {
        name: e,
        commands: single(rt, alloc, placed(alloc, call)),
    };
    let mut done = Vec::new(alloc);
    done.push(Done {
        command: 0,
        answer: LineAnswer::Category,
    })?;
    done.push(Done {
        command: 1,
        answer: LineAnswer::Object(Handle(0)),
    })?;
    let mut traces = Vec::new(alloc);
    traces.push(Trace {
        session: SessionNo(0),
        events: Items::new(Vec::new(alloc)),
        done: Items::new(done),
    })?;
    traces.push(Trace {
        session: SessionNo(1),
        events: Items::new(Vec::new(alloc)),
        done: single(rt, alloc, Done { command: 0, answer }),
    })?;
    let report = Report {
        histories: single(rt, alloc, history(rt, alloc)?),
        traces: Items::new(traces),
        plans: Items::new(Vec::new(alloc)),
    };
    let sessions = single(rt, alloc, placed(alloc, session));
    Ok(report_text(alloc, prelude.as_slice(), sessions.as_slice(), &report).expect(rt, "memory"))
}

#[test]
fn a_session_goes_on_with_the_numbers_of_the_prelude(rt: HostRuntime) -> Result<(), Fail> {
    let alloc = rt.alloc();
    let field = Field::from_prime(5).ok_or("a prime")?;
    let value = MorData::Mat(Matrix::identity(alloc, field, 2).expect(&rt, "room for the matrix"));
    let mismatch = Mismatch {
        place: 3,
        left: Handle(1),
        right: Handle(0),
    };
    for (answer, line) in [
        (
            LineAnswer::Morphism(Arrow {
                src: Handle(0),
                tgt: Handle(0),
                value,
            }),
            "e = V#1 -> V#1 [1 0; 0 1]\n",
        ),
        (LineAnswer::Object(Handle(1)), "V#2: 1\ne = V#2\n"),
        (
            LineAnswer::Refused(LineRefusal::Mismatch(mismatch)),
            "V#2: 1\ne ! Mismatch 3 V#2 V#1\n",
        ),
    ] {
        let all = format!(in alloc; "V: vec 5\nV#1: 2\na = V#1\nsession e\n{line}")?;
        let text = text(&rt, alloc, answer)?;
        assert!(rt; text.as_slice() == all.as_str().as_bytes());
    }
    Ok(())
}
