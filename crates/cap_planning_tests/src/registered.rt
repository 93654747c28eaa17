// What no clause says: worked examples of whole certificates from the bytes of a script, and that the call succeeds where there is memory.

use cap_check::check;
use cap_registered::certificates;
use cap_script::parse;
use std::alloc::{AllocError, Global};
use std::process::Abort;
use std::test::Fail;

/// Matrices over F_5 with nine primitives, kernels and lifts at 20.
const NINE: &str = "category V vec 5
register V Identity
register V Compose
register V Zero
register V Add
register V Scale
register V IsCongruent
register V DirectSum
register V Kernel
register V Lift
";

/// The certificate of its plan.
const CERTIFICATE: &str =
    "certificate 1 V vec\nreg Identity 1\nreg Compose 1\nreg Zero 1\nreg Add 1\nreg Scale 1\nreg IsCongruent 2\nreg DirectSum 5\nreg Kernel 20\nreg Lift 20\nop Identity prim 1\nop Compose prim 1\nop Zero prim 1\nop Add prim 1\nop Negate rule 1 2\nop Subtract rule 2 4\nop Scale prim 1\nop IsCongruent prim 2\nop IsZero rule 6 4\nop ZeroObject missing\nop DirectSum prim 5\nop Product rule 9 6\nop Coproduct rule 10 6\nop Pair rule 13 32\nop Copair missing\nop Kernel prim 20\nop KernelLift rule 29 21\nop Cokernel missing\nop CokernelColift missing\nop WeakKernel rule 27 21\nop WeakCokernel missing\nop Lift prim 20\nop Colift missing\nop IsMono rule 31 25\nop IsEpi missing\nop IsIso rule 37 28\nop IsSplitMono missing\nop IsSplitEpi rule 41 23\nop Inverse rule 44 27\nop Section rule 42 22\nop Retraction missing\nop Equalizer rule 19 25\nop Coequalizer missing\nop Pullback rule 21 34\nop Pushout missing\nop Image missing\nop Coimage missing\nop KernelMap rule 50 23\nop CokernelMap missing\nop Intersection rule 52 36\nop Union missing\nop IsSubobject rule 54 21\nop Homology missing\nop IsExact missing\nend\n";

/// The certificates of a script that stands in two pieces.
fn certified(
    rt: &impl Abort,
    alloc: Global,
    before: &str,
    text: &str,
) -> Result<String, AllocError> {
    let whole = format!(in alloc; "{before}{text}")?;
    assert!(rt; whole.len() < 4000);
    let script = parse(alloc, whole.as_bytes()).expect(rt, "a script");
    let script = check(alloc, script).expect(rt, "a sound script");
    let bytes = certificates(alloc, &script).expect(rt, "memory");
    Ok(String::from_utf8(bytes).expect(rt, "a text"))
}

#[test]
fn a_certificate_has_a_line_for_each_registration_and_operation(
    rt: HostRuntime,
) -> Result<(), Fail> {
    for more in [
        "",
        "finalise V\n",
        "register V Kernel 7\n",
        "register V WeakKernel 3\n",
        "finalise V\nregister V Pullback 10\nfinalise V\n",
        "session s\nregister V Pullback 10\nend\n",
        "category W vec 7\nregister W Pullback 10\n",
    ] {
        let text = certified(&rt, rt.alloc(), NINE, more)?;
        assert!(rt; text.as_str().starts_with(CERTIFICATE), "with {more}");
        let others = text.as_str().matches("certificate").count();
        assert_eq!(rt; others, more.matches("category").count() + 1);
    }
    Ok(())
}

#[test]
fn another_primitive_makes_lighter_ways(rt: HostRuntime) -> Result<(), Fail> {
    for (more, line) in [
        ("register V Pullback 10\n", "\nreg Pullback 10\n"),
        ("register V Pullback 10\n", "\nop Pullback prim 10\n"),
        ("register V Pullback 10\n", "\nop IsMono rule 33 13\n"),
        ("register V Pullback 10\n", "\nop Equalizer rule 58 20\n"),
        ("register V Pullback 10\n", "\nop Intersection rule 52 12\n"),
        ("register V Pullback 10\n", "\nop Kernel prim 20\n"),
        ("register V Colift\n", "\nop Retraction rule 43 22\n"),
        ("register V Colift\n", "\nop Inverse rule 44 27\n"),
    ] {
        let text = certified(&rt, rt.alloc(), NINE, more)?;
        assert!(rt; text.as_str().contains(line), "{line} with {more}");
    }
    Ok(())
}

#[test]
fn each_category_has_a_certificate_in_order(rt: HostRuntime) -> Result<(), Fail> {
    let table = "table T prime 5\nobjects A\nbasis e A A\nunit A = 1 e\nend\n";
    let two = "category B freyd T\ncategory A add T\nregister A WeakKernel\nregister A Kernel\n";
    let text = certified(&rt, rt.alloc(), table, two)?;
    let first = "certificate 1 B freyd\nop Identity missing\n";
    let second = "certificate 1 A add\nreg WeakKernel 20\nop Identity missing\n";
    assert!(rt; text.as_str().starts_with(first));
    assert!(rt; text.as_str().contains(second));
    assert_eq!(rt; text.as_str().matches("missing\n").count(), 44 + 43);
    assert_eq!(rt; text.as_str().matches("end\n").count(), 2);
    let none = certified(&rt, rt.alloc(), table, "")?;
    assert!(rt; none.as_str().is_empty());
    let bare = certified(&rt, rt.alloc(), "category V vec 5\n", "")?;
    assert!(rt;
        bare.as_str()
            .starts_with("certificate 1 V vec\nop Identity missing\n")
    );
    assert_eq!(rt; bare.as_str().matches("missing\n").count(), 44);
    Ok(())
}
