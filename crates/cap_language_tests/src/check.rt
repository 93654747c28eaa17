// What no clause says: worked examples of each fault and its place, and that the calls succeed where there is memory.
use cap_check::{CheckFault, Checked, built, check};
use cap_script::parse;
use std::alloc::{AllocError, Global};
use std::process::Abort;
use std::test::Fail;

/// Two categories of matrices, an object in each, a morphism and a tuple of four.
const PLAIN: &[u8] = b"category V vec 5
category W vec 5
object V a = 1
object W b = 1
let f = V Identity a
let k = V DirectSum a a
";

/// A table of two objects, a category of each kind over it, an object of the sums and a functor.
const TABLE: &[u8] = b"table T prime 5
objects A B
basis e A A
basis x A B
basis i B B
unit A = 1 e
unit B = 1 i
end
category D add T
category F freyd T
category R rep T
object D z = [A B]
object R m = dims 1 1
";

/// A quiver of three objects with two arrows, the functors on it and one of these.
const QUIVER: &[u8] = b"quiver Q prime 2 bound 3
objects A B C
arrow x A B
arrow y B C
relation 1 x*y
end
category R rep Q
object R m = dims 1 1 1
";

/// A script with a quiver, two categories and two sessions.
const REALISTIC: &[u8] = b"quiver Q prime 2 bound 3
objects A B C
arrow x A B
arrow y B C
relation 1 x*y
end
category R rep Q
register R Compose
register R Zero
register R IsCongruent
register R Kernel
register R Cokernel
finalise R
category F freyd Q
register F Kernel
finalise F
object R m = dims 1 1 0 maps x=[1]
object R s = dims 0 1 0
session one
let i = R s -> m {[] [1] []}
let c = R Cokernel i
let t = R IsExact i c
end
session two
object F b = [] -> [B] []
object F n = [A] -> [B] [(1)]
let q = F b -> n [(1)]
let k = F Kernel q
let i = R s -> m {[] [1] []}
let c = R Cokernel i
end
";

/// The checked form of a small script that stands in two pieces, or its first fault.
fn checked(
    rt: &impl Abort,
    alloc: Global,
    before: &[u8],
    text: &[u8],
) -> Result<Result<Checked, CheckFault>, AllocError> {
    let mut whole = Vec::new(alloc);
    whole.extend_from_slice(before)?;
    whole.extend_from_slice(text)?;
    assert!(rt; whole.len() < 4000);
    let script = parse(alloc, &whole).expect(rt, "a script");
    Ok(check(alloc, script))
}

/// Whether it is sound, or what is wrong.
fn told(rt: &impl Abort, alloc: Global, before: &[u8], text: &[u8]) -> Result<String, AllocError> {
    match checked(rt, alloc, before, text)? {
        Ok(_script) => String::from_str(alloc, "sound"),
        Err(fault) => fault.to_string(alloc),
    }
}

/// Whether it is built, or what is not.
fn unbuilt(
    rt: &impl Abort,
    alloc: Global,
    before: &[u8],
    text: &[u8],
) -> Result<String, AllocError> {
    let script = checked(rt, alloc, before, text)?.expect(rt, "a sound script");
    match built(&script) {
        Ok(()) => String::from_str(alloc, "built"),
        Err(fault) => fault.to_string(alloc),
    }
}

#[test]
fn realistic_script_is_sound(rt: HostRuntime) {
    let script = checked(&rt, rt.alloc(), b"", REALISTIC)
        .expect(&rt, "memory")
        .expect(&rt, "a sound script");
    assert!(rt; script.prelude().len() == 13 && script.sessions().len() == 2);
}

#[test]
fn blocks_are_not_built(rt: HostRuntime) -> Result<(), Fail> {
    let table: [(&[u8], &[u8], &str); 4] = [
        (b"", b"", "built"),
        (PLAIN, b"session s\nlet g = V Negate f\nend", "built"),
        (PLAIN, TABLE, "bad script: line 7 column 1 limit"),
        (b" \n  ", QUIVER, "bad script: line 2 column 3 limit"),
    ];
    for (before, text, expected) in &table {
        let line = unbuilt(&rt, rt.alloc(), before, text)?;
        assert_eq!(rt; line.as_str(), *expected);
    }
    Ok(())
}

/// A prime that is not in the table, and a limit that is passed.
#[test]
fn primes_and_limits(rt: HostRuntime) -> Result<(), Fail> {
    let table: [(&[u8], &[u8], &str); 18] = [
        (
            b"",
            b"category V vec 9",
            "bad script: line 1 column 16 prime",
        ),
        (b"", b"category V vec 251", "sound"),
        (
            b"",
            b"table T prime 4\nobjects A\nbasis e A A\nunit A = 1 e\nend",
            "bad script: line 1 column 15 prime",
        ),
        (
            b"",
            b"quiver Q prime 103 bound 17\nobjects A\nend",
            "bad script: line 1 column 16 prime",
        ),
        (
            b"",
            b"quiver Q prime 2 bound 17\nobjects A\nend",
            "bad script: line 1 column 24 limit",
        ),
        (
            b"",
            b"quiver Q prime 2 bound 0\nobjects A\nend",
            "bad script: line 1 column 24 limit",
        ),
        (
            b"",
            b"quiver Q prime 2 bound 16\nobjects a b c d e f g h i j k l m n o p\nend",
            "sound",
        ),
        (
            b"",
            b"quiver Q prime 2 bound 16\nobjects a b c d e f g h i j k l m n o p a\nend",
            "bad script: line 2 column 41 limit",
        ),
        (
            QUIVER,
            b"quiver P prime 2 bound 2\nobjects A\narrow x A A\nrelation 1 x + 1 x + 1 x + 1 x + 1 x + 1 x + 1 x + 1 x + 1 x + 1 x + 1 x + 1 x + 1 x + 1 x + 1 x + 1 x + -1 x\nend",
            "bad script: line 12 column 106 limit",
        ),
        (
            PLAIN,
            b"object V c = 2049",
            "bad script: line 7 column 14 limit",
        ),
        (
            PLAIN,
            b"object V c = 2048\nregister V Kernel 1\nregister V Cokernel 1000000",
            "sound",
        ),
        (
            PLAIN,
            b"register V Kernel 0",
            "bad script: line 7 column 19 limit",
        ),
        (
            PLAIN,
            b"register V Kernel 1000001",
            "bad script: line 7 column 19 limit",
        ),
        (
            TABLE,
            b"object D y = 2049",
            "bad script: line 14 column 14 limit",
        ),
        (
            TABLE,
            b"object D y = [A A A A A A A A A A A A A A A A A A A A A A A A A A A A A A A A A A A A A A A A A A A A A A A A A A A A A A A A A A A A A A A A A]",
            "bad script: line 14 column 143 limit",
        ),
        (
            TABLE,
            b"object R y = dims 1 2 2049",
            "bad script: line 14 column 23 limit",
        ),
        (
            b"",
            b"category a vec 2\ncategory b vec 2\ncategory c vec 2\ncategory d vec 2\ncategory e vec 2\ncategory f vec 2\ncategory g vec 2\ncategory h vec 2\ncategory i vec 2\ncategory j vec 2\ncategory k vec 2\ncategory l vec 2\ncategory m vec 2\ncategory n vec 2\ncategory o vec 2\ncategory p vec 2\ncategory q vec 2",
            "bad script: line 17 column 1 limit",
        ),
        (
            b"",
            b"session a\nend\nsession b\nend\nsession c\nend\nsession d\nend\nsession e\nend\nsession f\nend\nsession g\nend\nsession h\nend\nsession i\nend\nsession j\nend\nsession k\nend\nsession l\nend\nsession m\nend\nsession n\nend\nsession o\nend\nsession p\nend\nsession q\nend",
            "bad script: line 33 column 1 limit",
        ),
    ];
    for (before, text, expected) in &table {
        let line = told(&rt, rt.alloc(), before, text)?;
        assert_eq!(rt; line.as_str(), *expected);
    }
    Ok(())
}

/// A name that is not bound, and one that is bound already.
#[test]
fn names(rt: HostRuntime) -> Result<(), Fail> {
    let table: [(&[u8], &[u8], &str); 23] = [
        (b"", b"finalise V", "bad script: line 1 column 10 known"),
        (
            b"",
            b"category V add T",
            "bad script: line 1 column 16 known",
        ),
        (b"", b"object V a = 1", "bad script: line 1 column 8 known"),
        (
            PLAIN,
            b"let g = X Identity a",
            "bad script: line 7 column 9 known",
        ),
        (
            PLAIN,
            b"let g = V Identity c",
            "bad script: line 7 column 20 known",
        ),
        (
            PLAIN,
            b"let g = V Identity a c",
            "bad script: line 7 column 22 known",
        ),
        (
            PLAIN,
            b"let g = V a -> c [1]",
            "bad script: line 7 column 16 known",
        ),
        (
            PLAIN,
            b"let g = src c",
            "bad script: line 7 column 13 known",
        ),
        (
            b"",
            b"table T prime 5\nobjects A\nbasis e A B\nend",
            "bad script: line 3 column 11 known",
        ),
        (
            b"",
            b"table T prime 5\nobjects A\nunit A = 1 e\nbasis e A A\nend",
            "bad script: line 3 column 12 known",
        ),
        (
            b"",
            b"quiver Q prime 2 bound 3\nobjects A\narrow x A A\nrelation 1 x*y\narrow y A A\nend",
            "bad script: line 4 column 14 known",
        ),
        (
            TABLE,
            b"object D y = [A C]",
            "bad script: line 14 column 17 known",
        ),
        (
            QUIVER,
            b"object R n = dims 1 1 1 maps x*z=[1]",
            "bad script: line 9 column 32 known",
        ),
        (
            PLAIN,
            b"category V vec 7",
            "bad script: line 7 column 10 taken",
        ),
        (
            PLAIN,
            b"object V f = 2",
            "bad script: line 7 column 10 taken",
        ),
        (
            PLAIN,
            b"session s\nlet a = V Identity a\nend",
            "bad script: line 8 column 5 taken",
        ),
        (
            PLAIN,
            b"session s\nend\nsession s\nend",
            "bad script: line 9 column 9 taken",
        ),
        (
            TABLE,
            b"quiver T prime 2 bound 1\nobjects A\nend",
            "bad script: line 14 column 8 taken",
        ),
        (
            b"",
            b"quiver Q prime 2 bound 1\nobjects A A\nend",
            "bad script: line 2 column 11 taken",
        ),
        (
            b"",
            b"quiver Q prime 2 bound 1\nobjects A\narrow A A A\narrow A A A\nend",
            "bad script: line 4 column 7 taken",
        ),
        (
            b"",
            b"category s vec 2\nobject s s = 1\nsession s\nend",
            "sound",
        ),
        (
            PLAIN,
            b"session s\nobject V c = 1\nend\nsession t\nlet g = V Identity c\nend",
            "bad script: line 11 column 20 known",
        ),
        (
            PLAIN,
            b"session s\nobject V c = 1\nend\nsession t\nobject V c = 2\nend",
            "sound",
        ),
    ];
    for (before, text, expected) in &table {
        let line = told(&rt, rt.alloc(), before, text)?;
        assert_eq!(rt; line.as_str(), *expected);
    }
    Ok(())
}

/// Things given twice, units that are not given, and the first of two faults.
#[test]
fn blocks(rt: HostRuntime) -> Result<(), Fail> {
    let table: [(&[u8], &[u8], &str); 11] = [
        (
            b"",
            b"table T prime 5\nobjects A\nbasis e A A\nunit A = 1 e\nunit A = 1 e\nend",
            "bad script: line 5 column 6 taken",
        ),
        (
            b"",
            b"table T prime 5\nobjects A\nbasis e A A\nproduct e e = 1 e\nproduct e e = 1 e\nend",
            "bad script: line 5 column 9 taken",
        ),
        (
            b"",
            b"table T prime 5\nobjects A\nbasis e A A\nproduct f e = 1 e\nproduct f e = 1 e\nend",
            "bad script: line 4 column 9 known",
        ),
        (
            TABLE,
            b"object R n = dims 1 1 maps x=[1] x=[2]",
            "bad script: line 14 column 34 taken",
        ),
        (
            QUIVER,
            b"object R n = dims 1 1 1 maps x*y=[1] x=[1] x*y=[1]",
            "bad script: line 9 column 44 taken",
        ),
        (
            b"",
            b"table T prime 5\nobjects A B\nbasis e A A\nunit A = 1 e\nend",
            "bad script: line 5 column 1 sort",
        ),
        (
            b"",
            b"table T prime 5\nobjects A\nend",
            "bad script: line 3 column 1 sort",
        ),
        (b"", b"quiver Q prime 5 bound 1\nobjects A\nend", "sound"),
        (
            b"",
            b"category V vec 9\ncategory V vec 9",
            "bad script: line 1 column 16 prime",
        ),
        (
            PLAIN,
            b"let a = X Identity c",
            "bad script: line 7 column 5 taken",
        ),
        (
            PLAIN,
            b"object V a = 2049",
            "bad script: line 7 column 10 taken",
        ),
    ];
    for (before, text, expected) in &table {
        let line = told(&rt, rt.alloc(), before, text)?;
        assert_eq!(rt; line.as_str(), *expected);
    }
    Ok(())
}

/// A wrong number, sort or category of arguments, and a part that is not there.
#[test]
fn arguments(rt: HostRuntime) -> Result<(), Fail> {
    let table: [(&[u8], &[u8], &str); 22] = [
        (PLAIN, b"let g = V Compose f k.1", "sound"),
        (
            PLAIN,
            b"let g = V Identity a a",
            "bad script: line 7 column 22 sort",
        ),
        (
            PLAIN,
            b"let g = V Identity a -1",
            "bad script: line 7 column 22 sort",
        ),
        (
            PLAIN,
            b"let g = V Identity\n",
            "bad script: line 7 column 19 sort",
        ),
        (
            PLAIN,
            b"let g = V Compose f",
            "bad script: line 7 column 20 sort",
        ),
        (
            PLAIN,
            b"let g = V Identity f",
            "bad script: line 7 column 20 sort",
        ),
        (
            PLAIN,
            b"let g = V Negate a",
            "bad script: line 7 column 18 sort",
        ),
        (
            PLAIN,
            b"let g = W Identity a",
            "bad script: line 7 column 20 sort",
        ),
        (
            PLAIN,
            b"let g = W Negate f",
            "bad script: line 7 column 18 sort",
        ),
        (
            PLAIN,
            b"let g = V Negate -1",
            "bad script: line 7 column 18 sort",
        ),
        (
            PLAIN,
            b"let g = V Scale f f",
            "bad script: line 7 column 17 sort",
        ),
        (PLAIN, b"let g = V Scale -1 f", "sound"),
        (
            PLAIN,
            b"let g = V a -> b [1]",
            "bad script: line 7 column 16 sort",
        ),
        (PLAIN, b"let g = tgt a", "bad script: line 7 column 13 sort"),
        (PLAIN, b"let g = tgt k.4\nlet h = V Identity g", "sound"),
        (
            PLAIN,
            b"let g = V Negate k",
            "bad script: line 7 column 18 sort",
        ),
        (
            PLAIN,
            b"let g = V Negate k.5",
            "bad script: line 7 column 20 sort",
        ),
        (
            PLAIN,
            b"let g = V Negate k.0",
            "bad script: line 7 column 20 sort",
        ),
        (
            PLAIN,
            b"let g = V Negate f.1",
            "bad script: line 7 column 20 sort",
        ),
        (
            PLAIN,
            b"let g = V Identity k.9",
            "bad script: line 7 column 20 sort",
        ),
        (
            PLAIN,
            b"let g = W Negate k.9",
            "bad script: line 7 column 18 sort",
        ),
        (
            PLAIN,
            b"let g = src k.5",
            "bad script: line 7 column 15 sort",
        ),
    ];
    for (before, text, expected) in &table {
        let line = told(&rt, rt.alloc(), before, text)?;
        assert_eq!(rt; line.as_str(), *expected);
    }
    Ok(())
}

/// Literals of another kind's form, maps over a table, and numbers of dimensions and parts.
#[test]
fn literals(rt: HostRuntime) -> Result<(), Fail> {
    let table: [(&[u8], &[u8], &str); 22] = [
        (
            PLAIN,
            b"object V c = [Z]",
            "bad script: line 7 column 14 sort",
        ),
        (
            PLAIN,
            b"object V c = dims 4000",
            "bad script: line 7 column 14 sort",
        ),
        (
            PLAIN,
            b"let g = V a -> a {[1]}",
            "bad script: line 7 column 18 sort",
        ),
        (
            PLAIN,
            b"let g = V a -> a [1; (1)]",
            "bad script: line 7 column 22 sort",
        ),
        (
            TABLE,
            b"object D y = 1",
            "bad script: line 14 column 14 sort",
        ),
        (
            TABLE,
            b"object D y = [A] -> [] []",
            "bad script: line 14 column 14 sort",
        ),
        (
            TABLE,
            b"object F y = [A]",
            "bad script: line 14 column 14 sort",
        ),
        (
            TABLE,
            b"object F y = [] -> [A] [1]",
            "bad script: line 14 column 25 sort",
        ),
        (TABLE, b"object F y = [] -> [A] []", "sound"),
        (
            TABLE,
            b"let g = D z -> z [(1) -1]",
            "bad script: line 14 column 23 sort",
        ),
        (
            TABLE,
            b"object R n = 1",
            "bad script: line 14 column 14 sort",
        ),
        (
            TABLE,
            b"let g = R m -> m [1]",
            "bad script: line 14 column 18 sort",
        ),
        (
            TABLE,
            b"object R n = dims 1 1 maps x*x=[1]",
            "bad script: line 14 column 29 sort",
        ),
        (
            TABLE,
            b"object R n = dims 1 1 maps x*z*x=[1]",
            "bad script: line 14 column 29 sort",
        ),
        (
            TABLE,
            b"object R n = dims 1 1 maps z*x=[1]",
            "bad script: line 14 column 28 known",
        ),
        (QUIVER, b"object R n = dims 1 1 1 maps x*y=[1]", "sound"),
        (
            TABLE,
            b"object R n = dims 1 1 1",
            "bad script: line 14 column 23 sort",
        ),
        (
            TABLE,
            b"object R n = dims 1",
            "bad script: line 14 column 20 sort",
        ),
        (
            TABLE,
            b"object R n = dims 1 maps x=[1]",
            "bad script: line 14 column 21 sort",
        ),
        (
            TABLE,
            b"let g = R m -> m {[1] [1] [1]}",
            "bad script: line 14 column 27 sort",
        ),
        (
            TABLE,
            b"let g = R m -> m {[1]}",
            "bad script: line 14 column 22 sort",
        ),
        (QUIVER, b"let g = R m -> m {[1] [] [1]}", "sound"),
    ];
    for (before, text, expected) in &table {
        let line = told(&rt, rt.alloc(), before, text)?;
        assert_eq!(rt; line.as_str(), *expected);
    }
    Ok(())
}
