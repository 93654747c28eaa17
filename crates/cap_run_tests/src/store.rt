// Replies of a state: the example's ten events, refusals, and a history that is full.
ghost use Rattle.std.specs.Prelude.{◌≤◌, IfOk, IfSome};
ghost use Rattle.cap_ops.specs.Ends.{IsOperation};
ghost use Rattle.cap_store.specs.Tested.{IsAlways, IsOnceFinal};

use cap_history::{Event, Reply, Told};
use cap_names::{Handle, Items, Name, NoMemory, OpId, SessionNo};
use cap_ops::operations::{COKERNEL, KERNEL, LIFT};
use cap_ops::{Arg, Arrow, Choice, Datum, End, Key, Kind, Out, OutArrow, PrimOut, Regs, Value};
use cap_rules::costs;
use cap_store::{CatState, EnterRefusal, StepRefusal};
use std::alloc::Global;
use std::test::Fail;

#[derive(Debug, Drop)]
struct Mark(u8);

impl Datum for Mark {
    ghost cells_of = { λ _. 1 };

    fn same(&self, b: &Mark) -> bool {
        self.0 == b.0
    }

    fn cells(&self) -> u64 {
        1
    }

    fn copy(&self, _alloc: Global) -> Result<Mark, NoMemory> {
        Ok(Mark(self.0))
    }
}

/// A category of matrices that offers Kernel and Lift, in which nothing has happened.
fn new_state(alloc: Global) -> CatState<Mark, Mark> {
    let mut weights = [None; 44];
    weights[15] = Some(20);
    weights[21] = Some(20);
    CatState::new(alloc, Kind::Mat, Regs { weights }, costs())
}

fn register(op: OpId, weight: u32) -> Event<Mark, Mark>
    requires operation { IsOperation op.0 }
    requires from { 1 ≤ weight }
    requires to { weight ≤ 1000000 }
    ensures { IsAlways result }
{
    Event::Register { op, weight }
}

/// The declaration of an object by a letter.
fn declare(letter: u8, mark: u8) -> Event<Mark, Mark>
    ensures { IsAlways result }
{
    match Name::new(&[letter]) {
        Some(name) => Event::Declare {
            name,
            object: Mark(mark),
        },
        None => Event::PlanOf,
    }
}

/// The key of the kernel of a morphism from this object to the object 1.
fn key(alloc: Global, src: u32) -> Result<Key<Mark>, NoMemory>
    ensures { IfOk result (λ k. IsAlways {O = Mark} (Event.Ask k)) }
{
    let mut args = Vec::new(alloc);
    args.push(Arg::Mor(Arrow {
        src: Handle(src),
        tgt: Handle(1),
        value: Mark(12),
    }))?;
    Ok(Key {
        op: KERNEL,
        args: Items::new(args),
    })
}

fn mark_of(told: &Told<Mark, Mark>) -> u32 {
    match &told.value {
        Value::One(f) => u32::from(f.value.0),
        _ => 0,
    }
}

/// The word of a reply, with its number: a handle, the mark of a value, a place, a weight, or a taken name's handle and mark.
fn word(reply: &Reply<Mark, Mark>) -> (&'static str, u32, u64) {
    match reply {
        Reply::Done => ("done", 0, 0),
        Reply::Final(_) => ("final", 0, 0),
        Reply::Object(h) => ("object", h.0, 0),
        Reply::Hit(told) => ("hit", mark_of(told), told.objects.len() as u64),
        Reply::Miss(Choice::Prim) => ("miss prim", 0, 0),
        Reply::Miss(_) => ("miss", 0, 0),
        Reply::Kept(told) => ("kept", mark_of(told), told.objects.len() as u64),
        Reply::Found(told) => ("found", mark_of(told), told.objects.len() as u64),
        Reply::PlanIs(_) => ("plan", 0, 0),
        Reply::AlreadyFinal { at } => ("already final", *at, 0),
        Reply::NotFinal => ("not final", 0, 0),
        Reply::NotOffered => ("not offered", 0, 0),
        Reply::Twice { weight } => ("twice", *weight, 0),
        Reply::NameTaken { handle, object } => ("name taken", handle.0, u64::from(object.0)),
    }
}

/// What a step answers.
fn said(answer: &Result<Reply<Mark, Mark>, StepRefusal>) -> (&'static str, u32, u64) {
    match answer {
        Ok(reply) => word(reply),
        Err(StepRefusal::Full { entries, cells }) => ("full", *entries, *cells),
        Err(StepRefusal::NoMemory) => ("no memory", 0, 0),
    }
}

/// A step of session 1 by an event that may always be asked.
fn step(
    state: &mut CatState<Mark, Mark>,
    alloc: Global,
    event: Event<Mark, Mark>,
) -> (&'static str, u32, u64)
    requires { IsAlways event }
{
    let answer = state.step(alloc, SessionNo(1), event);
    said(&answer)
}

/// The put of a kernel with this mark, where the category is final. Its source is a new object.
fn put(
    state: &mut CatState<Mark, Mark>,
    alloc: Global,
    mark: u8,
) -> Result<(&'static str, u32, u64), NoMemory> {
    let event = put_of(alloc, mark)?;
    if state.plan().is_none() {
        return Ok(("no plan", 0, 0));
    }
    let answer = state.step(alloc, SessionNo(2), event);
    Ok(said(&answer))
}

fn put_of(alloc: Global, mark: u8) -> Result<Event<Mark, Mark>, NoMemory>
    ensures { IfOk result IsOnceFinal }
{
    let key = key(alloc, 0)?;
    let mut fresh = Vec::new(alloc);
    fresh.push(Mark(1))?;
    let out = Out::One(OutArrow {
        src: End::New(0),
        tgt: End::New(0),
        value: Mark(mark),
    });
    Ok(Event::Put {
        key,
        out: PrimOut {
            fresh: Items::new(fresh),
            out,
        },
    })
}

#[test]
fn the_example_s_events_have_their_replies(rt: HostRuntime) -> Result<(), Fail> {
    let alloc = rt.alloc();
    let mut s = new_state(alloc);
    assert_eq!(rt; step(&mut s, alloc, register(KERNEL, 20)), ("done", 0, 0));
    assert_eq!(rt; step(&mut s, alloc, Event::Finalise), ("final", 0, 0));
    assert_eq!(rt; step(&mut s, alloc, declare(b'a', 2)), ("object", 0, 0));
    assert_eq!(rt; step(&mut s, alloc, declare(b'b', 2)), ("object", 1, 0));
    let asked = Event::Ask(key(alloc, 0)?);
    assert_eq!(rt; step(&mut s, alloc, asked), ("miss prim", 0, 0));
    assert_eq!(rt; put(&mut s, alloc, 7)?, ("kept", 7, 1));
    let asked = Event::Ask(key(alloc, 0)?);
    assert_eq!(rt; step(&mut s, alloc, asked), ("hit", 7, 1));
    assert_eq!(rt; put(&mut s, alloc, 8)?, ("found", 7, 1));
    let other = Event::Ask(key(alloc, 2)?);
    assert_eq!(rt; step(&mut s, alloc, other), ("miss prim", 0, 0));
    assert_eq!(rt; step(&mut s, alloc, Event::PlanOf), ("plan", 0, 0));
    assert_eq!(rt; s.history().len(), 10);
    Ok(())
}

#[test]
fn refusals_tell_their_causes(rt: HostRuntime) -> Result<(), Fail> {
    let alloc = rt.alloc();
    let mut s = new_state(alloc);
    assert_eq!(rt;
        step(&mut s, alloc, register(COKERNEL, 20)),
        ("not offered", 0, 0)
    );
    assert_eq!(rt; step(&mut s, alloc, register(KERNEL, 20)), ("done", 0, 0));
    assert_eq!(rt; step(&mut s, alloc, register(KERNEL, 7)), ("twice", 20, 0));
    let asked = Event::Ask(key(alloc, 0)?);
    assert_eq!(rt; step(&mut s, alloc, asked), ("not final", 0, 0));
    assert_eq!(rt; step(&mut s, alloc, declare(b'a', 2)), ("object", 0, 0));
    assert_eq!(rt; step(&mut s, alloc, declare(b'b', 3)), ("object", 1, 0));
    assert_eq!(rt; step(&mut s, alloc, declare(b'b', 3)), ("object", 1, 0));
    assert_eq!(rt; step(&mut s, alloc, declare(b'b', 2)), ("name taken", 1, 3));
    assert_eq!(rt; step(&mut s, alloc, Event::Finalise), ("final", 0, 0));
    assert_eq!(rt;
        step(&mut s, alloc, Event::Finalise),
        ("already final", 8, 0)
    );
    assert_eq!(rt;
        step(&mut s, alloc, register(LIFT, 20)),
        ("already final", 8, 0)
    );
    Ok(())
}

/// A state that was asked for its plan until its history was full.
fn full_state(alloc: Global) -> CatState<Mark, Mark> {
    let mut s = new_state(alloc);
    for _ in 0..200_000 {
        let _ = step(&mut s, alloc, Event::PlanOf);
    }
    s
}

#[test]
fn after_200_000_questions_every_event_finds_the_history_full(rt: HostRuntime) -> Result<(), Fail> {
    let alloc = rt.alloc();
    let mut s = full_state(alloc);
    assert_eq!(rt; s.history().len(), 200_000);
    match s.history() {
        [.., last] => assert!(rt; matches!(last.reply, Reply::NotFinal)),
        [] => assert!(rt; false),
    }
    assert_eq!(rt;
        step(&mut s, alloc, register(KERNEL, 20)),
        ("full", 200_000, 0)
    );
    assert_eq!(rt; step(&mut s, alloc, Event::Finalise), ("full", 200_000, 0));
    assert_eq!(rt; step(&mut s, alloc, declare(b'a', 2)), ("full", 200_000, 0));
    let asked = Event::Ask(key(alloc, 0)?);
    assert_eq!(rt; step(&mut s, alloc, asked), ("full", 200_000, 0));
    assert_eq!(rt; step(&mut s, alloc, Event::PlanOf), ("full", 200_000, 0));
    let entered = s.enter(alloc, SessionNo(1), Event::PlanOf);
    assert!(rt;
        matches!(
            entered,
            Err(EnterRefusal::Full {
                event: Event::PlanOf,
                ..
            })
        )
    );
    Ok(())
}
