// Mismatches by their places.
ghost use Rattle.std.specs.Prelude.{◌≡◌};
ghost use Rattle.cap_ops.specs.declared.sorts.Sort.TheVariants.{Mor as MorSort};
ghost use Rattle.cap_ops.specs.Mismatches.{sort_of_argument};

use cap_names::Handle;
use cap_ops::operations::{COMPOSE, DIRECT_SUM, KERNEL_MAP, PAIR, SCALE};
use cap_ops::{Arg, Arrow, Mismatch, ends_fit};
use std::test::Fail;

fn arrow(src: u32, tgt: u32) -> Arg<u16>
    ensures { sort_of_argument result ≡ MorSort }
{
    Arg::Mor(Arrow {
        src: Handle(src),
        tgt: Handle(tgt),
        value: 1,
    })
}

fn wrong(place: u32, left: u32, right: u32) -> Result<(), Mismatch> {
    Err(Mismatch {
        place,
        left: Handle(left),
        right: Handle(right),
    })
}

#[test]
fn places_count_the_ends_of_morphisms(rt: HostRuntime) {
    assert_eq!(rt; ends_fit(COMPOSE, &[arrow(3, 1), arrow(1, 2)]), Ok(()));
    assert_eq!(rt;
        ends_fit(COMPOSE, &[arrow(3, 1), arrow(4, 2)]),
        wrong(3, 1, 4)
    );
    let wide = [arrow(0, 1), arrow(0, 2), arrow(3, 1), arrow(3, 4)];
    assert_eq!(rt; ends_fit(PAIR, &wide), wrong(8, 2, 4));
    let first = [arrow(0, 1), arrow(9, 2), arrow(3, 1), arrow(3, 4)];
    assert_eq!(rt; ends_fit(PAIR, &first), wrong(3, 0, 9));
    assert_eq!(rt;
        ends_fit(KERNEL_MAP, &[arrow(0, 1), arrow(1, 2), arrow(5, 3)]),
        wrong(6, 2, 3)
    );
}

#[test]
fn scalars_have_no_end_and_objects_one(rt: HostRuntime) {
    let objects: [Arg<u16>; 2] = [Arg::Obj(Handle(4)), Arg::Obj(Handle(7))];
    assert_eq!(rt; ends_fit(DIRECT_SUM, &objects), Ok(()));
    assert_eq!(rt; ends_fit(SCALE, &[Arg::Num(3), arrow(0, 1)]), Ok(()));
}

#[test]
fn mismatches_have_a_text(rt: HostRuntime) -> Result<(), Fail> {
    let fault = Mismatch {
        place: 3,
        left: Handle(1),
        right: Handle(4),
    };
    let text = fault.to_string(rt.alloc())?;
    assert_eq!(rt;
        text.as_str(),
        "the end at place 3 has another object than needed"
    );
    Ok(())
}
