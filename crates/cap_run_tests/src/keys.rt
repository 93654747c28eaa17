// Copies, counts and mentions where memory is there.
ghost use Rattle.std.specs.Prelude.{IfOk};
ghost use Rattle.cap_ops.specs.Cells.{IsShortKey, IsShortAnswer, IsShortResult};

use cap_keys::{
    copy_key, copy_result, copy_value, key_cells, mentioned, result_cells, same_key, value_cells,
};
use cap_names::{Handle, Items, NoMemory, OpId};
use cap_ops::{Arg, Arrow, Datum, End, Key, Out, OutArrow, PrimOut, Value};
use std::alloc::Global;
use std::test::Fail;

#[derive(Debug, Drop)]
struct Mark(u8);

impl Datum for Mark {
    ghost cells_of = { λ m. m.0 };

    fn same(&self, b: &Mark) -> bool {
        self.0 == b.0
    }

    fn cells(&self) -> u64 {
        u64::from(self.0)
    }

    fn copy(&self, _alloc: Global) -> Result<Mark, NoMemory> {
        Ok(Mark(self.0))
    }
}

fn arrow(src: u32, tgt: u32, mark: u8) -> Arrow<Mark> {
    Arrow {
        src: Handle(src),
        tgt: Handle(tgt),
        value: Mark(mark),
    }
}

fn a_key(alloc: Global) -> Result<Key<Mark>, NoMemory>
    ensures { IfOk result IsShortKey }
{
    let mut args = Vec::new(alloc);
    args.push(Arg::Mor(arrow(0, 1, 3)))?;
    args.push(Arg::Obj(Handle(1)))?;
    Ok(Key {
        op: OpId(2),
        args: Items::new(args),
    })
}

fn a_pair(alloc: Global) -> Result<Value<Mark>, NoMemory>
    ensures { IfOk result IsShortAnswer }
{
    let mut arrows = Vec::new(alloc);
    arrows.push(arrow(4, 1, 5))?;
    arrows.push(arrow(4, 2, 6))?;
    Ok(Value::Many(Items::new(arrows)))
}

fn a_result(alloc: Global) -> Result<PrimOut<Mark, Mark>, NoMemory>
    ensures { IfOk result IsShortResult }
{
    let mut fresh = Vec::new(alloc);
    fresh.push(Mark(7))?;
    Ok(PrimOut {
        fresh: Items::new(fresh),
        out: Out::One(OutArrow {
            src: End::New(0),
            tgt: End::Old(Handle(1)),
            value: Mark(2),
        }),
    })
}

fn mark_of(out: &Out<Mark>) -> u8 {
    match out {
        Out::One(f) => f.value.0,
        _ => 0,
    }
}

#[test]
fn keys_are_copied_and_counted(rt: HostRuntime) -> Result<(), Fail> {
    let key = a_key(rt.alloc())?;
    let copy = copy_key(rt.alloc(), &key)?;
    assert!(rt; same_key(&key, &copy));
    assert_eq!(rt; key_cells(&key), 3);
    Ok(())
}

#[test]
fn values_are_copied_and_name_each_object_once(rt: HostRuntime) -> Result<(), Fail> {
    let pair = a_pair(rt.alloc())?;
    assert_eq!(rt; value_cells(&pair), 11);
    let copy = copy_value(rt.alloc(), &pair)?;
    let named = mentioned(rt.alloc(), &copy)?;
    assert_eq!(rt; named.len(), 3);
    assert_eq!(rt; named.get(0).copied(), Some(Handle(4)));
    assert_eq!(rt; named.get(1).copied(), Some(Handle(1)));
    assert_eq!(rt; named.get(2).copied(), Some(Handle(2)));
    Ok(())
}

#[test]
fn results_are_copied_with_their_new_objects(rt: HostRuntime) -> Result<(), Fail> {
    let given = a_result(rt.alloc())?;
    assert_eq!(rt; result_cells(&given), 9);
    let copy = copy_result(rt.alloc(), &given)?;
    assert_eq!(rt; copy.fresh.as_slice().len(), 1);
    assert_eq!(rt; mark_of(&copy.out), 2);
    Ok(())
}
