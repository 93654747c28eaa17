ghost use Rattle.std.specs.Prelude.{◌≤◌, length};

use cap_names::NoMemory;
use cap_turn::{Logged, Turn};
use std::alloc::Global;
use std::test::Fail;

// At most ten numbers, with an owner.
#[derive(Drop)]
struct Ledger {
    owner: u8,
    sums: Vec<u32>,
    ghost few: { length sums.items ≤ 10 },
}

impl Ledger {
    ghost use Rattle.std.specs.Prelude.{◌≡◌, [], ◌∷◌, ◌++◌, IfOk};

    fn add(&mut self, sum: u32) -> Result<(), NoMemory>
        ensures owner { self.new.owner ≡ self.old.owner }
        ensures added { IfOk result (λ _. self.new.sums.items ≡ self.old.sums.items ++ sum ∷ []) }
    {
        if self.sums.len() >= 10 {
            return Err(NoMemory);
        }
        self.sums.push(sum)?;
        Ok(())
    }
}

impl Logged for Ledger {
    type Entry = u32;

    type Label = u8;

    ghost log = { λ s. s.sums.items };

    ghost label = { λ s. s.owner };

    fn entries(&self) -> u32 {
        self.sums.len() as u32
    }
}

#[test]
fn what_one_seat_gives_back_the_next_seat_takes(rt: HostRuntime) -> Result<(), Fail> {
    let alloc = rt.alloc();
    let ledger = Ledger {
        owner: 7,
        sums: Vec::new(alloc),
    };
    let (turn, mut first) = Turn::open(alloc, ledger, 2)?;
    let mut second = turn.split(&mut first);
    let mut taken = turn.take(&rt, &mut first);
    taken.add(30)?;
    turn.give(&mut first, taken);
    let mut taken = turn.take(&rt, &mut second);
    assert!(rt; taken.owner == 7 && taken.sums.as_slice() == [30].as_slice());
    taken.add(12)?;
    turn.give(&mut second, taken);
    turn.join(&mut first, second);
    let closed = turn.close(first);
    assert!(rt; closed.owner == 7 && closed.sums.as_slice() == [30, 12].as_slice());
    Ok(())
}
