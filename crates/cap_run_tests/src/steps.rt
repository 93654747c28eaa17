// Slots and results.
use cap_names::{Handle, Items, NoMemory};
use cap_ops::{Arg, Arrow, Datum, Out, Value};
use cap_steps::{Slot, copy_at, out_of_slot, parameters, plain_step, slot_of_value};
use cap_terms::{Step, Var};
use std::alloc::Global;
use std::test::Fail;

#[derive(Debug, Drop)]
struct Mark(u16);

impl Datum for Mark {
    ghost cells_of = { λ _. 1 };

    fn same(&self, b: &Mark) -> bool {
        self.0 == b.0
    }

    fn cells(&self) -> u64 {
        1
    }

    fn copy(&self, _alloc: Global) -> Result<Mark, NoMemory> {
        Ok(Mark(self.0))
    }
}

fn arrow(src: u32, tgt: u32, mark: u16) -> Arrow<Mark> {
    Arrow {
        src: Handle(src),
        tgt: Handle(tgt),
        value: Mark(mark),
    }
}

#[test]
fn a_pair_goes_in_and_out(rt: HostRuntime) -> Result<(), Fail> {
    let args = [Arg::Mor(arrow(0, 1, 5)), Arg::Mor(arrow(2, 1, 6))];
    let mut env = parameters(rt.alloc(), &args)?;
    let vars = vec![in rt.alloc(); Var(0), Var(1)]?;
    let tuple = plain_step(rt.alloc(), 5, &Step::Tuple(Items::new(vars)), &env)?;
    env.push(tuple)?;
    let second = Step::Part { of: Var(2), n: 2 };
    env.push(plain_step(rt.alloc(), 5, &second, &env)?)?;
    let found = copy_at(rt.alloc(), &env, Var(3))?;
    assert!(rt; matches!(found, Slot::Morphism(Arrow { value: Mark(6), .. })));
    let out = out_of_slot(rt.alloc(), Slot::<Mark>::Truth(false))?;
    assert!(rt; matches!(out, Out::Truth(false)));
    let minus_one = plain_step(rt.alloc(), 5, &Step::MinusOne, &env)?;
    assert!(rt; matches!(minus_one, Slot::Scalar(4)));
    assert!(rt; matches!(slot_of_value(Value::<Mark>::Truth(true)), Slot::Truth(true)));
    Ok(())
}
