// What no clause says: worked examples, and that the calls succeed where there is memory.
use cap_names::Reason;
use cap_script::{ScriptFault, parse, print};
use std::alloc::{AllocError, Global};
use std::process::Abort;
use std::test::Fail;

/// A script with a quiver, two categories and two sessions.
const REALISTIC: &[u8] = b"quiver Q prime 2 bound 3
objects A B C
arrow x A B
arrow y B C
relation 1 x*y
end
category R rep Q
register R Compose
register R Zero
register R IsCongruent
register R Kernel
register R Cokernel
finalise R
category F freyd Q
register F Kernel
finalise F
object R m = dims 1 1 0 maps x=[1]
object R s = dims 0 1 0
session one
let i = R s -> m {[] [1] []}
let c = R Cokernel i
let t = R IsExact i c
end
session two
object F b = [] -> [B] []
object F n = [A] -> [B] [(1)]
let q = F b -> n [(1)]
let k = F Kernel q
let i = R s -> m {[] [1] []}
let c = R Cokernel i
end
";

/// Whether a small text is a script, or its first fault.
fn told(rt: &impl Abort, alloc: Global, text: &[u8]) -> Result<String, AllocError> {
    assert!(rt; text.len() < 2000);
    match parse(alloc, text) {
        Ok(_script) => String::from_str(alloc, "a script"),
        Err(fault) => fault.to_string(alloc),
    }
}

#[test]
fn small_texts_are_scripts_or_have_these_faults(rt: HostRuntime) -> Result<(), Fail> {
    let table: [(&[u8], &str); 26] = [
        (b"", "a script"),
        (b"\n \n# only a comment", "a script"),
        (b"plan V", "a script"),
        (b"session s\nend", "a script"),
        (b"a ?", "bad script: line 1 column 3 token"),
        (
            b"plan V\n\nplan 12345678901234567\n",
            "bad script: line 3 column 22 token",
        ),
        (
            b"category V vec 5\nobject V a = 2\nlet f = V a -> a [1 2",
            "bad script: line 3 column 22 syntax",
        ),
        (b"category V vec # x", "bad script: line 1 column 19 syntax"),
        (
            b"category V ring 5\n",
            "bad script: line 1 column 12 syntax",
        ),
        (
            b"table T prime 5\nobjects\n",
            "bad script: line 2 column 8 syntax",
        ),
        (
            b"table T prime 5\nobjects A\nunit A = 00\nend\n",
            "bad script: line 3 column 12 syntax",
        ),
        (
            b"table T prime 5\nobjects A\nunit A = 0 + 1 e\nend\n",
            "bad script: line 3 column 12 syntax",
        ),
        (
            b"table T prime 5\nobjects A\nunit A = 0 e\nproduct e e = 0\nend\n",
            "a script",
        ),
        (b"quiver Q prime 2\n", "bad script: line 1 column 17 syntax"),
        (
            b"quiver Q prime 2 bound 3\nobjects A\narrow x A A\nrelation 1 x*\nend\n",
            "bad script: line 4 column 14 syntax",
        ),
        (
            b"register V Kernel x\n",
            "bad script: line 1 column 19 syntax",
        ),
        (b"finalise\n", "bad script: line 1 column 9 syntax"),
        (b"plan 5\n", "bad script: line 1 column 6 syntax"),
        (b"object V a 2\n", "bad script: line 1 column 12 syntax"),
        (
            b"object V Kernel = 2\n",
            "bad script: line 1 column 10 syntax",
        ),
        (
            b"object V a = dims 1 maps maps\n",
            "bad script: line 1 column 26 syntax",
        ),
        (
            b"let vec = V a -> b []\n",
            "bad script: line 1 column 5 syntax",
        ),
        (b"let f V\n", "bad script: line 1 column 7 syntax"),
        (
            b"let f = V a -> b [1 2;]\n",
            "bad script: line 1 column 23 syntax",
        ),
        (b"session s\nplan V\n", "bad script: line 3 column 1 syntax"),
        (
            b"session s\nend\nplan V\n",
            "bad script: line 3 column 1 syntax",
        ),
    ];
    for (text, expected) in &table {
        let line = told(&rt, rt.alloc(), text)?;
        assert_eq!(rt; line.as_str(), *expected);
    }
    Ok(())
}

/// The text of a script that a text is one of.
fn printed(rt: &impl Abort, alloc: Global, text: &[u8]) -> Vec<u8> {
    assert!(rt; text.len() < 2000);
    let script = parse(alloc, text).expect(rt, "a script");
    print(alloc, &script).expect(rt, "memory")
}

#[test]
fn realistic_script_is_printed_and_parsed_again(rt: HostRuntime) {
    let once = printed(&rt, rt.alloc(), REALISTIC);
    let twice = printed(&rt, rt.alloc(), &once);
    assert!(rt; once.as_slice() == twice.as_slice());
    assert!(rt; once.len() < 2000);
    let first = parse(rt.alloc(), &once).expect(&rt, "a script");
    let second = parse(rt.alloc(), &twice).expect(&rt, "a script");
    assert!(rt; first == second);
    assert!(rt; first.prelude.len() == 13 && first.sessions.len() == 2);
}

#[test]
fn each_front_of_the_realistic_script_is_one_or_ends_in_its_fault(rt: HostRuntime) {
    let mut line: u32 = 1;
    for n in 0..REALISTIC.len() {
        let front = &REALISTIC[..n];
        if n > 0 && REALISTIC[n - 1] == b'\n' {
            line = line.saturating_add(1);
        }
        match parse(rt.alloc(), front) {
            Ok(_script) => {}
            Err(ScriptFault::BadScript(bad)) => {
                assert!(rt; bad.line == line && bad.reason == Reason::Syntax);
            }
            Err(ScriptFault::NoMemory) => panic!(rt; "memory ran out"),
        }
    }
}
