use crate::{SessionSeat, SharedCategory};
use cap_desk::{Ledger, OwnDesk};
use cap_field::Field;
use cap_history::{Event, Reply};
use cap_names::SessionNo;
use cap_offer::AnyCat;
use cap_ops::Kind;
use cap_seat::Seat;
use std::test::Fail;

#[test]
fn what_a_session_adds_stands_in_the_state_at_the_end(rt: HostRuntime) -> Result<(), Fail> {
    let alloc = rt.alloc();
    let field = Field::from_prime(5).ok_or("a prime of the table")?;
    let desk = OwnDesk::new(Ledger::new(alloc, AnyCat::new(alloc, Kind::Mat, field)?));
    let (desk, memory) = Seat::new(alloc, desk, SessionNo(0)).into_parts();
    let mut shared = SharedCategory::open(alloc, desk.into_ledger(), memory, 2)?;
    let mut seat = shared.split().into_seat();
    let mut behind = shared.turn().take(&rt, &mut seat);
    let entered = behind.ledger.enter(alloc, SessionNo(1), Event::Finalise);
    shared.turn().give(&mut seat, behind);
    assert!(rt; matches!(&entered, Ok((Reply::Final(_), _))));
    shared.join(SessionSeat::new(seat));
    let closed = shared.close();
    assert!(rt; closed.history().len() == 1);
    Ok(())
}
