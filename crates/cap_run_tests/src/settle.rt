// A primitive's answer gets handles where memory is there.
ghost use Rattle.cap_settle.specs.Settled.{OutFits};
ghost use Rattle.std.specs.Prelude.{IfOk};

use cap_names::{Handle, Items, NoMemory};
use cap_ops::{Datum, End, Out, OutArrow, Value};
use cap_settle::settle;
use std::alloc::Global;
use std::test::Fail;

#[derive(Debug, Drop)]
struct Mark(u8);

impl Datum for Mark {
    ghost cells_of = { λ _. 1 };

    fn same(&self, b: &Mark) -> bool {
        self.0 == b.0
    }

    fn cells(&self) -> u64 {
        1
    }

    fn copy(&self, _alloc: Global) -> Result<Mark, NoMemory> {
        Ok(Mark(self.0))
    }
}

fn projections(alloc: Global) -> Result<Out<Mark>, NoMemory>
    ensures { IfOk result (OutFits 5) }
{
    let mut arrows = Vec::new(alloc);
    arrows.push(OutArrow {
        src: End::New(1),
        tgt: End::Old(Handle(2)),
        value: Mark(3),
    })?;
    arrows.push(OutArrow {
        src: End::New(1),
        tgt: End::Old(Handle(4)),
        value: Mark(6),
    })?;
    Ok(Out::Many(Items::new(arrows)))
}

fn sources(value: &Value<Mark>) -> (u32, u32) {
    match value {
        Value::Many(arrows) => match arrows.as_slice() {
            [f, g] => (f.src.0, g.src.0),
            _ => (0, 0),
        },
        _ => (0, 0),
    }
}

#[test]
fn a_new_source_gets_the_handle_behind_those_told(rt: HostRuntime) -> Result<(), Fail> {
    let out = projections(rt.alloc())?;
    let value = settle(rt.alloc(), 5, &out)?;
    assert_eq!(rt; sources(&value), (6, 6));
    Ok(())
}
