use super::*;
use cap_check::{built, check};
use cap_io::{Gate, GatePlace};
use cap_script::parse;
use std::sync::atomic::{AtomicU32, Ordering};
use std::test::Fail;

// How often each kind of place was passed.
#[derive(Drop)]
struct Counts {
    commands: AtomicU32,
    held: AtomicU32,
    missed: AtomicU32,
}

impl Gate for Counts {
    fn pass(&self, _session: u8, place: GatePlace) {
        match place {
            GatePlace::Command(_) => self.commands.fetch_add(1, Ordering::SeqCst),
            GatePlace::Held(_) => self.held.fetch_add(1, Ordering::SeqCst),
            GatePlace::Missed(_) => self.missed.fetch_add(1, Ordering::SeqCst),
        };
    }
}

// Eight parts and commands, of which seven ask the category; the last asks for an operation that isn't registered.
const TEXT: &str =
    "category V vec 5\nregister V Identity\nfinalise V\nobject V a = 1\nlet i = V Identity a\nlet j = V Identity a\nsession s\nlet k = V Identity a\nlet l = V Compose k k\nend\n";

#[test]
fn each_command_each_event_and_each_miss_passes_the_gate(rt: HostRuntime) -> Result<(), Fail> {
    let gate = Counts {
        commands: AtomicU32::new(0),
        held: AtomicU32::new(0),
        missed: AtomicU32::new(0),
    };
    let script = parse(rt.alloc(), TEXT.as_bytes()).expect(&rt, "a script");
    let script = check(rt.alloc(), script).expect(&rt, "a sound script");
    match built(&script) {
        Ok(()) => {
            let report = run_plain(rt.alloc(), &script, &gate).expect(&rt, "memory");
            assert_eq!(rt; report.histories.len(), 1);
            assert_eq!(rt; report.traces.len(), 2);
            assert_eq!(rt; report.plans.len(), 1);
        }
        Err(_) => assert!(rt; false, "the kind is built"),
    }
    assert_eq!(rt; gate.commands.load(Ordering::SeqCst), 8);
    assert_eq!(rt; gate.held.load(Ordering::SeqCst), 8);
    assert_eq!(rt; gate.missed.load(Ordering::SeqCst), 2);
    Ok(())
}
