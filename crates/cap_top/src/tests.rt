mod gates;
mod scripts;

use super::*;
use cap_data::{MorData, ObjData};
use cap_io::{MemSink, MemSource, OpenGate, SureSink, SureSource};
use cap_report::Report;
use std::alloc::Global;
use std::process::Abort;
use std::sync::Wait;
use std::test::Fail;
use std::thread::Threads;

// The script of the first example: the kernel of a matrix of rank 1.
const EXAMPLE: &str =
    "category V vec 5\nregister V Kernel 20\nfinalise V\nobject V a = 2\nobject V b = 2\nlet f = V a -> b [1 2; 2 4]\nlet k = V Kernel f\n";

const EXAMPLE_OUTPUT: &str =
    "V: vec 5\nV registers Kernel 20\nV final\nV#1: 2\na = V#1\nV#2: 2\nb = V#2\nf = V#1 -> V#2 [1 2; 2 4]\nV#3: 1\nk = V#3 -> V#1 [1 2]\n";

// How many histories a report has, and how many answers each of its traces.
fn is_of_size(report: &Report<ObjData, MorData>, histories: usize, answers: &[usize]) -> bool {
    let mut same = report.histories.len() == histories && report.traces.len() == answers.len();
    for (trace, wanted) in report.traces.as_slice().iter().zip(answers) {
        same = same && trace.done.len() == *wanted;
    }
    same
}

// `cap plain` on an input answers this status and writes this text.
fn answers_plain(
    rt: &impl Abort,
    alloc: Global,
    input: &str,
    status: Status,
    output: &str,
) -> Result<(), Fail> {
    let mut source = SureSource::new(input.as_bytes().to_vec(alloc)?);
    let mut sink = SureSink::new(alloc)?;
    let outcome = cap_plain(alloc, &mut source, &mut sink, &OpenGate);
    assert_eq!(rt; outcome.status, status, "at {input}");
    assert!(rt; sink.bytes() == output.as_bytes(), "at {input}");
    Ok(())
}

// `cap plain` on an input answers this status and writes this text, and so does `cap` on the words `plain` and `run`.
fn answers<R: Abort + Threads + Wait + Sync>(
    rt: &R,
    alloc: Global,
    input: &str,
    status: Status,
    output: &str,
) -> Result<(), Fail> {
    answers_plain(rt, alloc, input, status, output)?;
    word_answers(rt, alloc, "plain", input, status, output)?;
    word_answers(rt, alloc, "run", input, status, output)
}

#[test]
fn kernel_of_a_rank_one_matrix(rt: HostRuntime) -> Result<(), Fail> {
    answers(&rt, rt.alloc(), EXAMPLE, Status::Ok, EXAMPLE_OUTPUT)
}

#[test]
fn kernel_of_a_matrix_without_rows(rt: HostRuntime) -> Result<(), Fail> {
    let input =
        "category V vec 5\nregister V Kernel 20\nfinalise V\nobject V a = 0\nobject V b = 3\nlet f = V a -> b []\nlet k = V Kernel f\n";
    let output =
        "V: vec 5\nV registers Kernel 20\nV final\nV#1: 0\na = V#1\nV#2: 3\nb = V#2\nf = V#1 -> V#2 []\nV#3: 0\nk = V#3 -> V#1 []\n";
    answers(&rt, rt.alloc(), input, Status::Ok, output)
}

#[test]
fn kernel_of_a_zero_matrix(rt: HostRuntime) -> Result<(), Fail> {
    let input =
        "category V vec 5\nregister V Kernel 20\nfinalise V\nobject V a = 3\nobject V b = 2\nlet f = V a -> b [0 0; 0 0; 0 0]\nlet k = V Kernel f\n";
    let output =
        "V: vec 5\nV registers Kernel 20\nV final\nV#1: 3\na = V#1\nV#2: 2\nb = V#2\nf = V#1 -> V#2 [0 0; 0 0; 0 0]\nV#3: 3\nk = V#3 -> V#1 [1 0 0; 0 1 0; 0 0 1]\n";
    answers(&rt, rt.alloc(), input, Status::Ok, output)
}

#[test]
fn short_scripts_are_run(rt: HostRuntime) -> Result<(), Fail> {
    let head = "category V vec 5\nregister V Kernel 20\nfinalise V\n";
    let lines = "V: vec 5\nV registers Kernel 20\nV final\n";
    let right = [
        ("", ""),
        ("object V a = 2\n", "V#1: 2\na = V#1\n"),
        (
            "object V a = 2\nobject V b = 2\nlet f = V a -> b [1 2; 2 5]\nlet k = V Kernel f\n",
            "V#1: 2\na = V#1\nV#2: 2\nb = V#2\nf = V#1 -> V#2 [1 2; 2 0]\nV#3: 0\nk = V#3 -> V#1 []\n",
        ),
        (
            "object V a = 02\nobject V b = 0\nlet f = V a -> b []",
            "V#1: 2\na = V#1\nV#2: 0\nb = V#2\nf = V#1 -> V#2 []\n",
        ),
    ];
    for (rest, text) in right {
        let alloc = rt.alloc();
        let input = format!(in alloc; "{head}{rest}")?;
        let output = format!(in alloc; "{lines}{text}")?;
        answers(&rt, alloc, input.as_str(), Status::Ok, output.as_str())?;
    }
    answers(&rt, rt.alloc(), "", Status::Ok, "")?;
    answers(
        &rt,
        rt.alloc(),
        "category V vec 251\n",
        Status::Ok,
        "V: vec 251\n",
    )
}

#[test]
fn the_examples_are_run(rt: HostRuntime) -> Result<(), Fail> {
    let examples = [
        scripts::ENDS_THAT_DO_NOT_MEET,
        scripts::HOMOLOGY_OF_A_COMPLEX,
        scripts::IMAGES,
        scripts::KERNELS_AND_COKERNELS,
        scripts::LIFTS_THAT_ARE_NONE,
        scripts::MATRICES_PAST_THE_LIMITS,
        scripts::NAMES_IN_TWO_SESSIONS,
        scripts::OPERATION_THAT_IS_MISSING,
        scripts::PULLBACK_BY_ITS_RULE,
        scripts::SESSIONS_THAT_SHARE_A_CACHE,
    ];
    for (input, output) in examples {
        answers(&rt, rt.alloc(), input, Status::Ok, output)?;
    }
    let (input, output) = scripts::NAME_THAT_ANOTHER_SESSION_TOOK;
    answers_plain(&rt, rt.alloc(), input, Status::Ok, output)
}

#[test]
fn texts_with_a_fault_or_a_block_are_refused(rt: HostRuntime) -> Result<(), Fail> {
    let wrong = [
        (
            "category V vec 5\ncategory V vec 5\n",
            "bad script: line 2 column 10 taken\n",
        ),
        (
            "category V vec 5\nobject V a = 2049\n",
            "bad script: line 2 column 14 limit\n",
        ),
        (
            "category V vec 5\nobject V a = 2\nlet k = V Kernel a\n",
            "bad script: line 3 column 18 sort\n",
        ),
        (
            "category V vec 5\nlet k = V Kernel f\n",
            "bad script: line 2 column 18 known\n",
        ),
        ("category V vec 9\n", "bad script: line 1 column 16 prime\n"),
        (
            "category V vec 5\nobject V a ? 2\n",
            "bad script: line 2 column 12 token\n",
        ),
        (
            "category V vec 5\nobject V a = 2\nlet f = V a -> a [1 2",
            "bad script: line 3 column 22 syntax\n",
        ),
        (
            "category V vec 5\n\ntable T prime 5\nobjects A\nbasis e A A\nunit A = 1 e\nend\ncategory W add T\n",
            "bad script: line 3 column 1 limit\n",
        ),
    ];
    for (input, line) in wrong {
        answers(&rt, rt.alloc(), input, Status::BadScript, line)?;
    }
    Ok(())
}

#[test]
fn no_words_give_the_usage_line(rt: HostRuntime) -> Result<(), Fail> {
    let mut source = SureSource::new(EXAMPLE.as_bytes().to_vec(rt.alloc())?);
    let mut sink = SureSink::new(rt.alloc())?;
    let words = Vec::new(rt.alloc());
    let outcome = cap(&rt, rt.alloc(), &words, &mut source, &mut sink, &OpenGate);
    assert_eq!(rt; outcome.status.number(), 2);
    assert!(rt; is_of_size(&outcome.report, 0, &[]));
    assert!(rt;
        sink.bytes() == b"usage: cap run | run --log | plain | plan | check | demo N\n".as_slice()
    );
    Ok(())
}

#[test]
fn a_source_that_fails_at_once_gives_nothing(rt: HostRuntime) -> Result<(), Fail> {
    let fail = vec![in rt.alloc(); 0u64]?;
    let mut source = MemSource::new(EXAMPLE.as_bytes().to_vec(rt.alloc())?, 5, fail);
    let mut sink = SureSink::new(rt.alloc())?;
    let outcome = cap_plain(rt.alloc(), &mut source, &mut sink, &OpenGate);
    assert_eq!(rt; outcome.status.number(), 3);
    assert!(rt; sink.bytes().is_empty());
    Ok(())
}

#[test]
fn a_sink_that_fails_has_the_front_of_the_text(rt: HostRuntime) -> Result<(), Fail> {
    let fail = vec![in rt.alloc(); 5u64]?;
    let mut source = MemSource::new(
        EXAMPLE.as_bytes().to_vec(rt.alloc())?,
        7,
        Vec::new(rt.alloc()),
    );
    let mut sink = MemSink::new(rt.alloc(), 1, 1000, fail)?;
    let outcome = cap_plain(rt.alloc(), &mut source, &mut sink, &OpenGate);
    assert_eq!(rt; outcome.status.number(), 4);
    assert!(rt; sink.bytes() == b"V: ve".as_slice());
    assert!(rt; is_of_size(&outcome.report, 1, &[7]));
    Ok(())
}

#[test]
fn a_text_past_the_limit_is_too_long(rt: HostRuntime) -> Result<(), Fail> {
    let blanks = vec![in rt.alloc(); b' '; 1_048_577]?;
    let mut source = SureSource::new(blanks);
    let mut sink = SureSink::new(rt.alloc())?;
    let outcome = cap_plain(rt.alloc(), &mut source, &mut sink, &OpenGate);
    assert_eq!(rt; outcome.status.number(), 5);
    assert!(rt; sink.bytes() == b"too long\n".as_slice());
    Ok(())
}

// The certificate of the plan from kernels and lifts at 20, up to its line for Pullback, and behind it.
const CERTIFICATE_BEGINS: &str =
    "certificate 1 V vec\nreg Identity 1\nreg Compose 1\nreg Zero 1\nreg Add 1\nreg Scale 1\nreg IsCongruent 2\nreg DirectSum 5\nreg Kernel 20\nreg Lift 20\nop Identity prim 1\nop Compose prim 1\nop Zero prim 1\nop Add prim 1\nop Negate rule 1 2\nop Subtract rule 2 4\nop Scale prim 1\nop IsCongruent prim 2\nop IsZero rule 6 4\nop ZeroObject missing\nop DirectSum prim 5\nop Product rule 9 6\nop Coproduct rule 10 6\nop Pair rule 13 32\nop Copair missing\nop Kernel prim 20\nop KernelLift rule 29 21\nop Cokernel missing\nop CokernelColift missing\nop WeakKernel rule 27 21\nop WeakCokernel missing\nop Lift prim 20\nop Colift missing\nop IsMono rule 31 25\nop IsEpi missing\nop IsIso rule 37 28\nop IsSplitMono missing\nop IsSplitEpi rule 41 23\nop Inverse rule 44 27\nop Section rule 42 22\nop Retraction missing\nop Equalizer rule 19 25\nop Coequalizer missing\n";

const CERTIFICATE_ENDS: &str =
    "op Pushout missing\nop Image missing\nop Coimage missing\nop KernelMap rule 50 23\nop CokernelMap missing\nop Intersection rule 52 36\nop Union missing\nop IsSubobject rule 54 21\nop Homology missing\nop IsExact missing\n";

// The nine registrations of that certificate.
const REGISTRATIONS: &str =
    "category V vec 5\nregister V Identity\nregister V Compose\nregister V Zero\nregister V Add\nregister V Scale\nregister V IsCongruent\nregister V DirectSum\nregister V Kernel\nregister V Lift\nfinalise V\n";

// What `plain` writes for these.
const REGISTERED: &str =
    "V: vec 5\nV registers Identity 1\nV registers Compose 1\nV registers Zero 1\nV registers Add 1\nV registers Scale 1\nV registers IsCongruent 2\nV registers DirectSum 5\nV registers Kernel 20\nV registers Lift 20\nV final\n";

// What a word of the program answers to an input: this status and this text.
fn word_answers<R: Abort + Threads + Wait + Sync>(
    rt: &R,
    alloc: Global,
    word: &str,
    input: &str,
    status: Status,
    output: &str,
) -> Result<(), Fail> {
    let mut source = SureSource::new(input.as_bytes().to_vec(alloc)?);
    let mut sink = SureSink::new(alloc)?;
    let words = vec![in alloc; String::from_str(alloc, word)?]?;
    let outcome = cap(rt, alloc, &words, &mut source, &mut sink, &OpenGate);
    assert_eq!(rt; outcome.status, status, "at {input}");
    assert!(rt; sink.bytes() == output.as_bytes(), "at {input}");
    Ok(())
}

#[test]
fn plans_are_printed_as_certificates_that_are_accepted(rt: HostRuntime) -> Result<(), Fail> {
    let alloc = rt.alloc();
    let whole = format!(in alloc;
        "{CERTIFICATE_BEGINS}op Pullback rule 21 34\n{CERTIFICATE_ENDS}end\n"
    )?;
    let more = "object V a = 2\nregister V Pullback 10\nsession s\nlet k = V Identity a\nend\n";
    let script = format!(in alloc; "{REGISTRATIONS}{more}")?;
    let certificate = whole.as_str();
    word_answers(&rt, alloc, "plan", REGISTRATIONS, Status::Ok, certificate)?;
    word_answers(&rt, alloc, "plan", script.as_str(), Status::Ok, certificate)?;
    word_answers(&rt, alloc, "check", certificate, Status::Ok, "accepted\n")?;
    let shown = format!(in alloc; "{REGISTRATIONS}plan V\n")?;
    let text = format!(in alloc; "{REGISTERED}{certificate}")?;
    answers(&rt, alloc, shown.as_str(), Status::Ok, text.as_str())
}

#[test]
fn plans_of_other_texts_are_refused(rt: HostRuntime) -> Result<(), Fail> {
    for (input, line) in [
        ("category V vec 9\n", "bad script: line 1 column 16 prime\n"),
        (
            "category V vec 5\nregister V Kernel 0\n",
            "bad script: line 2 column 19 limit\n",
        ),
        (
            "category V vec 5\n\ntable T prime 5\nobjects A\nbasis e A A\nunit A = 1 e\nend\n",
            "bad script: line 3 column 1 limit\n",
        ),
        (
            "category V vec 5\nplan",
            "bad script: line 2 column 5 syntax\n",
        ),
    ] {
        word_answers(&rt, rt.alloc(), "plan", input, Status::BadScript, line)?;
    }
    word_answers(&rt, rt.alloc(), "plan", "", Status::Ok, "")
}

#[test]
fn certificates_are_accepted_rejected_or_refused(rt: HostRuntime) -> Result<(), Fail> {
    let alloc = rt.alloc();
    for (pullback, end, status, output) in [
        ("rule 21 34", "end\n", Status::Ok, "accepted\n"),
        (
            "rule 21 35",
            "end\n",
            Status::Rejected,
            "rejected: line 44\n",
        ),
        (
            "rule 21 33",
            "end\n",
            Status::Rejected,
            "rejected: line 44\n",
        ),
        (
            "rule 21 34",
            "",
            Status::BadScript,
            "bad script: line 55 column 1 syntax\n",
        ),
        (
            "rule 60 34",
            "end\n",
            Status::BadScript,
            "bad script: line 44 column 18 limit\n",
        ),
    ] {
        let input = format!(in alloc;
            "{CERTIFICATE_BEGINS}op Pullback {pullback}\n{CERTIFICATE_ENDS}{end}"
        )?;
        let mut source = SureSource::new(input.as_bytes().to_vec(alloc)?);
        let mut sink = SureSink::new(alloc)?;
        let words = vec![in alloc; String::from_str(alloc, "check")?]?;
        let outcome = cap(&rt, alloc, &words, &mut source, &mut sink, &OpenGate);
        assert_eq!(rt; outcome.status, status, "at {pullback}");
        assert!(rt; sink.bytes() == output.as_bytes(), "at {pullback}");
    }
    Ok(())
}
