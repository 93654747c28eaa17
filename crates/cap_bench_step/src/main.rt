// Times steps on long histories: each line of standard input is a number of kept values. It prints that number with the length of the history and the
// nanoseconds of an ask of a new key, of an ask of the key that was kept first, of a put of a new key, and of a reading of the plan.
#![tactic(auto)]

ghost use Rattle.std.specs.Prelude.{IfOk};
ghost use Rattle.cap_store.specs.Tested.{IsAlways, IsOnceFinal};

use cap_history::Event;
use cap_names::{Handle, Items, NoMemory, SessionNo};
use cap_ops::operations::KERNEL;
use cap_ops::{Arg, Arrow, Datum, End, Key, Kind, Out, OutArrow, PrimOut, Regs};
use cap_rules::costs;
use cap_store::CatState;
use std::alloc::Global;
use std::io;
use std::time::Instant;

/// Data of one number.
#[derive(Debug, Drop)]
struct Mark(u32);

impl Datum for Mark {
    ghost cells_of = { λ _. 1 };

    fn same(&self, b: &Mark) -> bool {
        self.0 == b.0
    }

    fn cells(&self) -> u64 {
        1
    }

    fn copy(&self, _alloc: Global) -> Result<Mark, NoMemory> {
        Ok(Mark(self.0))
    }
}

/// The key of the kernel of a morphism with this number.
fn key(alloc: Global, number: u32) -> Result<Key<Mark>, NoMemory>
    ensures { IfOk result (λ k. IsAlways {O = Mark} (Event.Ask k)) }
{
    let mut args = Vec::new(alloc);
    args.push(Arg::Mor(Arrow {
        src: Handle(0),
        tgt: Handle(1),
        value: Mark(number),
    }))?;
    Ok(Key {
        op: KERNEL,
        args: Items::new(args),
    })
}

/// The put of that key's value, with a new object.
fn put_of(alloc: Global, number: u32) -> Result<Event<Mark, Mark>, NoMemory>
    ensures { IfOk result IsOnceFinal }
{
    let key = key(alloc, number)?;
    let mut fresh = Vec::new(alloc);
    fresh.push(Mark(1))?;
    let out = Out::One(OutArrow {
        src: End::New(0),
        tgt: End::New(0),
        value: Mark(number),
    });
    Ok(Event::Put {
        key,
        out: PrimOut {
            fresh: Items::new(fresh),
            out,
        },
    })
}

/// Puts a value, where the category is final.
fn put(state: &mut CatState<Mark, Mark>, alloc: Global, number: u32) -> Result<(), NoMemory> {
    let event = put_of(alloc, number)?;
    if state.plan().is_some() {
        let _ = state.step(alloc, SessionNo(0), event);
    }
    Ok(())
}

/// Asks for the value of a key.
fn ask(state: &mut CatState<Mark, Mark>, alloc: Global, number: u32) -> Result<(), NoMemory> {
    let event = Event::Ask(key(alloc, number)?);
    let _ = state.step(alloc, SessionNo(0), event);
    Ok(())
}

/// A final category with so many kept values.
fn filled(alloc: Global, kept: u32) -> Result<CatState<Mark, Mark>, NoMemory> {
    let regs = Regs {
        weights: [Some(20); 44],
    };
    let mut state = CatState::new(alloc, Kind::Mat, regs, costs());
    let _ = state.step(alloc, SessionNo(0), Event::Finalise);
    for number in 0..kept {
        put(&mut state, alloc, number)?;
    }
    Ok(state)
}

/// How many steps of each kind are timed together.
const RUNS: u32 = 100;

/// Times the steps on a history with so many kept values.
fn time_steps(rt: &HostRuntime, kept: u32) -> io::Result<()> {
    let alloc = rt.alloc();
    let Ok(mut state) = filled(alloc, kept) else {
        return println!(rt; "no memory");
    };
    let length = state.history().len();
    let start = Instant::now(rt)?;
    for number in 0..RUNS {
        let _ = ask(&mut state, alloc, 4_000_000_000 + number);
    }
    let new = start.elapsed(rt)?.as_nanos() / RUNS as u128;
    let start = Instant::now(rt)?;
    for _ in 0..RUNS {
        let _ = ask(&mut state, alloc, 0);
    }
    let first = start.elapsed(rt)?.as_nanos() / RUNS as u128;
    let start = Instant::now(rt)?;
    for number in 0..RUNS {
        let _ = put(&mut state, alloc, 4_000_000_000 + number);
    }
    let put = start.elapsed(rt)?.as_nanos() / RUNS as u128;
    let start = Instant::now(rt)?;
    for _ in 0..RUNS {
        let _ = state.step(alloc, SessionNo(0), Event::PlanOf);
    }
    let plan = start.elapsed(rt)?.as_nanos() / RUNS as u128;
    println!(rt; "{kept} {length} {new} {first} {put} {plan}")
}

fn main(rt: HostRuntime) -> io::Result<()> {
    for line in rt.lines(rt.alloc()) {
        let line = line?;
        if let Ok(kept) = line.as_str().parse::<u32>() {
            time_steps(&rt, kept.min(100_000))?;
        }
    }
    Ok(())
}
