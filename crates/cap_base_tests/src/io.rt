// Worked examples of reading and writing, and each form once.
use cap_io::*;
use std::alloc::{AllocError, Global};
use std::test::Fail;

// `abc` in pieces of 2, with these calls failing.
fn abc(alloc: Global, fail: &[u64]) -> Result<MemSource, AllocError> {
    Ok(MemSource::new(b"abc".to_vec(alloc)?, 2, fail.to_vec(alloc)?))
}

#[test]
fn read_all_gives_the_bytes_within_the_limit(rt: HostRuntime) -> Result<(), Fail> {
    for limit in [3, 4, usize::MAX] {
        let bytes = read_all(rt.alloc(), &mut abc(rt.alloc(), &[])?, limit)?;
        assert_eq!(rt; bytes.as_slice(), b"abc".as_slice());
    }
    Ok(())
}

#[test]
fn read_all_says_why_it_ended(rt: HostRuntime) -> Result<(), Fail> {
    let cases = [
        ([9], 2, Some(ReadEnd::TooLong)),
        ([9], 0, Some(ReadEnd::TooLong)),
        ([0], 4, Some(ReadEnd::Fault)),
        ([1], 4, Some(ReadEnd::Fault)),
        ([1], 1, Some(ReadEnd::TooLong)),
        ([3], 4, None),
    ];
    for (fail, limit, want) in cases {
        let mut source = abc(rt.alloc(), &fail)?;
        let answer = read_all(rt.alloc(), &mut source, limit);
        assert_eq!(rt; answer.err(), want, "call {fail:?} fails, limit {limit}");
    }
    Ok(())
}

#[test]
fn write_all_writes_a_front_part_before_a_fault(rt: HostRuntime) -> Result<(), Fail> {
    for (space, call) in [(100, 5), (5, 99)] {
        let fail = [call].to_vec(rt.alloc())?;
        let mut sink = MemSink::new(rt.alloc(), 1, space, fail)?;
        assert_eq!(rt; write_all(&mut sink, b"V: vec 5\n"), Err(Failed));
        assert_eq!(rt; sink.bytes(), b"V: ve".as_slice());
    }
    Ok(())
}

#[test]
fn the_sure_forms_move_all_bytes(rt: HostRuntime) -> Result<(), Fail> {
    let mut source = SureSource::new(b"sure".to_vec(rt.alloc())?);
    let mut sink = SureSink::new(rt.alloc())?;
    let bytes = read_all(rt.alloc(), &mut source, 4)?;
    write_all(&mut sink, bytes.as_slice())?;
    write_all(&mut sink, b"!")?;
    assert_eq!(rt; sink.bytes(), b"sure!".as_slice());
    Ok(())
}

#[test]
fn a_sure_sink_drops_what_it_has_no_space_for(rt: HostRuntime) -> Result<(), Fail> {
    let mut sink = SureSink::new(rt.alloc())?;
    let all = vec![in rt.alloc(); 7u8; SURE_SPACE - 1]?;
    write_all(&mut sink, all.as_slice())?;
    assert_eq!(rt; sink.give(b"abc"), Ok(3));
    assert_eq!(rt; sink.bytes().len(), SURE_SPACE);
    assert_eq!(rt; sink.bytes().last(), Some(&b'a'));
    Ok(())
}

#[test]
fn a_reader_is_a_source(rt: HostRuntime) -> Result<(), Fail> {
    let mut source = StdSource::new(b"abc".as_slice());
    let bytes = read_all(rt.alloc(), &mut source, 3)?;
    assert_eq!(rt; bytes.as_slice(), b"abc".as_slice());
    let mut standard_input = StdSource::new(rt.stdin());
    assert_eq!(rt; standard_input.take(&mut []), Ok(0));
    Ok(())
}

#[test]
fn a_writer_is_a_sink(rt: HostRuntime) -> Result<(), Fail> {
    let mut written = Vec::new(rt.alloc());
    write_all(&mut StdSink::new(&mut written), b"abc")?;
    assert_eq!(rt; written.as_slice(), b"abc".as_slice());

    let mut room = [0u8; 2];
    let mut short = StdSink::new(room.as_mut_slice());
    assert_eq!(rt; write_all(&mut short, b"abc"), Err(Failed));

    let mut standard_output = StdSink::new(rt.stdout());
    assert_eq!(rt; standard_output.give(b""), Ok(0));
    Ok(())
}

#[test]
fn an_open_gate_is_passed_at_once() {
    for place in [
        GatePlace::Command(0),
        GatePlace::Held(1),
        GatePlace::Missed(2),
    ] {
        OpenGate.pass(1, place);
    }
}

#[test]
fn errors_have_a_text(rt: HostRuntime) -> Result<(), Fail> {
    let text = format!(in rt.alloc(); "{Failed}, {NoMemory}, {}", ReadEnd::TooLong)?;
    assert_eq!(rt; text.as_str(), "the call failed, out of memory, too long");
    Ok(())
}
