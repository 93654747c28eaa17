// Certificates that are read, and texts that are refused.
mod costs;

use cap_cert::{CertsFault, Verdict, read_certs, verify, write_cert};
use cap_names::{BadScript, Reason};
use costs::costs;
use std::alloc::Global;
use std::process::Abort;
use std::test::Fail;

/// The registrations of the first worked example.
const REGS: &str =
    "reg Identity 1\nreg Compose 1\nreg Zero 1\nreg Add 1\nreg Scale 1\nreg IsCongruent 2\nreg DirectSum 5\nreg Kernel 20\nreg Lift 20\n";

/// The lines of its operations.
const OPS: &str =
    "op Identity prim 1\nop Compose prim 1\nop Zero prim 1\nop Add prim 1\nop Negate rule 1 2\nop Subtract rule 2 4\nop Scale prim 1\nop IsCongruent prim 2\nop IsZero rule 6 4\nop ZeroObject missing\nop DirectSum prim 5\nop Product rule 9 6\nop Coproduct rule 10 6\nop Pair rule 13 32\nop Copair missing\nop Kernel prim 20\nop KernelLift rule 29 21\nop Cokernel missing\nop CokernelColift missing\nop WeakKernel rule 27 21\nop WeakCokernel missing\nop Lift prim 20\nop Colift missing\nop IsMono rule 31 25\nop IsEpi missing\nop IsIso rule 37 28\nop IsSplitMono missing\nop IsSplitEpi rule 41 23\nop Inverse rule 44 27\nop Section rule 42 22\nop Retraction missing\nop Equalizer rule 19 25\nop Coequalizer missing\nop Pullback rule 21 34\nop Pushout missing\nop Image missing\nop Coimage missing\nop KernelMap rule 50 23\nop CokernelMap missing\nop Intersection rule 52 36\nop Union missing\nop IsSubobject rule 54 21\nop Homology missing\nop IsExact missing\n";

/// Nothing can be done.
const MISSING: &str =
    "op Identity missing\nop Compose missing\nop Zero missing\nop Add missing\nop Negate missing\nop Subtract missing\nop Scale missing\nop IsCongruent missing\nop IsZero missing\nop ZeroObject missing\nop DirectSum missing\nop Product missing\nop Coproduct missing\nop Pair missing\nop Copair missing\nop Kernel missing\nop KernelLift missing\nop Cokernel missing\nop CokernelColift missing\nop WeakKernel missing\nop WeakCokernel missing\nop Lift missing\nop Colift missing\nop IsMono missing\nop IsEpi missing\nop IsIso missing\nop IsSplitMono missing\nop IsSplitEpi missing\nop Inverse missing\nop Section missing\nop Retraction missing\nop Equalizer missing\nop Coequalizer missing\nop Pullback missing\nop Pushout missing\nop Image missing\nop Coimage missing\nop KernelMap missing\nop CokernelMap missing\nop Intersection missing\nop Union missing\nop IsSubobject missing\nop Homology missing\nop IsExact missing\n";

/// Nothing behind Scale can be done.
const REST: &str =
    "op IsCongruent missing\nop IsZero missing\nop ZeroObject missing\nop DirectSum missing\nop Product missing\nop Coproduct missing\nop Pair missing\nop Copair missing\nop Kernel missing\nop KernelLift missing\nop Cokernel missing\nop CokernelColift missing\nop WeakKernel missing\nop WeakCokernel missing\nop Lift missing\nop Colift missing\nop IsMono missing\nop IsEpi missing\nop IsIso missing\nop IsSplitMono missing\nop IsSplitEpi missing\nop Inverse missing\nop Section missing\nop Retraction missing\nop Equalizer missing\nop Coequalizer missing\nop Pullback missing\nop Pushout missing\nop Image missing\nop Coimage missing\nop KernelMap missing\nop CokernelMap missing\nop Intersection missing\nop Union missing\nop IsSubobject missing\nop Homology missing\nop IsExact missing\n";

/// What reading answers to a text: how many certificates, or the refusal.
fn read(alloc: Global, text: &str) -> Result<(usize, Option<BadScript>), Fail> {
    if text.len() > 1_048_576 {
        return Ok((0, None));
    }
    match read_certs(alloc, text.as_bytes()) {
        Ok(certs) => Ok((certs.len(), None)),
        Err(CertsFault::BadScript(bad)) => Ok((0, Some(bad))),
        Err(CertsFault::NoMemory) => Ok((99, None)),
    }
}

fn refused(
    rt: &impl Abort,
    alloc: Global,
    text: &str,
    line: u32,
    column: u32,
    reason: Reason,
) -> Result<(), Fail> {
    let bad = BadScript {
        line,
        column,
        reason,
    };
    assert_eq!(rt; read(alloc, text)?, (0, Some(bad)), "at {text}");
    Ok(())
}

#[test]
fn a_certificate_is_written_as_it_was_read(rt: HostRuntime) -> Result<(), Fail> {
    let alloc = rt.alloc();
    let text = format!(in alloc; "certificate 1 V vec\n{REGS}{OPS}end\n")?;
    if text.len() > 1_048_576 {
        return Ok(());
    }
    match read_certs(alloc, text.as_bytes()) {
        Ok(certs) => {
            assert_eq!(rt; certs.len(), 1);
            for cert in &certs {
                let written = write_cert(alloc, &cert.name, cert.kind, &cert.regs, &cert.plan)?;
                assert!(rt; written.as_slice() == text.as_bytes());
                assert_eq!(rt; cert.first_line, 1);
            }
        }
        Err(fault) => assert!(rt; false, "at {fault}"),
    }
    Ok(())
}

#[test]
fn certificates_are_read_by_their_tokens(rt: HostRuntime) -> Result<(), Fail> {
    let alloc = rt.alloc();
    let plain = format!(in alloc; "certificate 1 V vec\n{MISSING}end\n")?;
    assert_eq!(rt; read(alloc, plain.as_str())?, (1, None));
    let spaced = format!(in alloc;
        "  certificate 0001 reg rep # a comment\nreg\tAdd 0000000000000007 \r\n{MISSING}end\n"
    )?;
    assert_eq!(rt; read(alloc, spaced.as_str())?, (1, None));
    let two = format!(in alloc; "{plain}{spaced}")?;
    assert_eq!(rt; read(alloc, two.as_str())?, (2, None));
    Ok(())
}

#[test]
fn the_first_fault_is_told(rt: HostRuntime) -> Result<(), Fail> {
    let alloc = rt.alloc();
    for (head, line, column, reason) in [
        ("", 1, 1, Reason::Syntax),
        ("certificate 1 V vec\nreg Add 1", 2, 10, Reason::Syntax),
        ("certificate 2 V vec\n", 1, 13, Reason::Syntax),
        ("certificate 1 end vec\n", 1, 15, Reason::Syntax),
        ("certificate 1 Add vec\n", 1, 15, Reason::Syntax),
        ("certificate 1 V kind\n", 1, 17, Reason::Syntax),
        ("certificate 1 V vec\n\n", 2, 1, Reason::Syntax),
        (
            "certificate 1 V vec\nreg Add 1\nreg Zero 1\n",
            3,
            5,
            Reason::Syntax,
        ),
        (
            "certificate 1 V vec\nreg IsExact 1\nreg\n",
            3,
            1,
            Reason::Syntax,
        ),
        (
            "certificate 1 V vec\nop Compose missing\n",
            2,
            4,
            Reason::Syntax,
        ),
        (
            "certificate 1 V vec\nop Identity rule 21\n",
            2,
            20,
            Reason::Syntax,
        ),
        ("certificate 1 V vec\nreg Add 0\nreg ?", 3, 5, Reason::Token),
        (
            "certificate 1 V vec\nreg Add 12345678901234567\n",
            2,
            25,
            Reason::Token,
        ),
    ] {
        refused(&rt, alloc, head, line, column, reason)?;
    }
    let open = format!(in alloc; "certificate 1 V vec\n{REGS}{OPS}")?;
    refused(&rt, alloc, open.as_str(), 55, 1, Reason::Syntax)?;
    Ok(())
}

#[test]
fn limits_are_for_texts_without_other_faults(rt: HostRuntime) -> Result<(), Fail> {
    let alloc = rt.alloc();
    for (weight, column) in [("0", 9), ("1000001", 9), ("1000000", 0)] {
        let text = format!(in alloc; "certificate 1 V vec\nreg Add {weight}\n{MISSING}end\n")?;
        if column == 0 {
            assert_eq!(rt; read(alloc, text.as_str())?, (1, None));
        } else {
            refused(&rt, alloc, text.as_str(), 2, column, Reason::Limit)?;
        }
        let more = format!(in alloc; "{text}x")?;
        refused(&rt, alloc, more.as_str(), 48, 1, Reason::Syntax)?;
    }
    let plain = format!(in alloc; "certificate 1 V add\n{MISSING}end\n")?;
    let four = format!(in alloc; "{plain}{plain}{plain}{plain}")?;
    let sixteen = format!(in alloc; "{four}{four}{four}{four}")?;
    assert_eq!(rt; read(alloc, sixteen.as_str())?, (16, None));
    let seventeen = format!(in alloc; "{sixteen}{plain}")?;
    refused(
        &rt,
        alloc,
        seventeen.as_str(),
        16 * 46 + 1,
        1,
        Reason::Limit,
    )?;
    Ok(())
}

#[test]
fn the_first_false_line_is_named(rt: HostRuntime) -> Result<(), Fail> {
    let alloc = rt.alloc();
    for (scale, negate, verdict) in [
        ("prim 7", "rule 1 8", Verdict::Yes),
        ("prim 7", "rule 1 9", Verdict::No { line: 7 }),
        ("prim 6", "rule 1 8", Verdict::No { line: 7 }),
        ("prim 8", "rule 1 9", Verdict::No { line: 9 }),
        ("rule 1 7", "rule 1 8", Verdict::No { line: 9 }),
        ("prim 7", "prim 8", Verdict::No { line: 7 }),
    ] {
        let text = format!(in alloc;
            "certificate 1 V vec\nreg Scale 7\nop Identity missing\nop Compose missing\nop Zero missing\nop Add missing\nop Negate {negate}\nop Subtract missing\nop Scale {scale}\n{REST}end\n"
        )?;
        if text.len() > 1_048_576 {
            return Ok(());
        }
        match read_certs(alloc, text.as_bytes()) {
            Ok(certs) => assert_eq!(rt; verify(&certs, &costs()), verdict, "at {scale}, {negate}"),
            Err(fault) => assert!(rt; false, "at {fault}"),
        }
    }
    Ok(())
}
