// Gates at which two sessions wait for each other: sessions one after another, one lock for all categories, or a lock round
// whole commands would never let them meet.
use super::*;
use cap_history::Reply;
use cap_io::{Gate, GatePlace};
use std::sync::atomic::{AtomicU32, Ordering};

// How often a session looks for the other before it gives up.
const MOST_LOOKS: u32 = 1_000_000_000;

// When session 1 or 2 first comes to its place, it says so, and waits until the other has come to its own.
#[derive(Drop)]
struct Meeting {
    places: (GatePlace, GatePlace),
    first: AtomicU32,
    second: AtomicU32,
    gave_up: AtomicU32,
}

impl Meeting {
    // Says that one has come, and looks for the other.
    fn meet(&self, own: &AtomicU32, other: &AtomicU32) {
        if own.fetch_add(1, Ordering::SeqCst) > 0 {
            return;
        }
        for _ in 0..MOST_LOOKS {
            if other.load(Ordering::SeqCst) > 0 {
                return;
            }
        }
        self.gave_up.fetch_add(1, Ordering::SeqCst);
    }
}

impl Gate for Meeting {
    fn pass(&self, session: u8, place: GatePlace) {
        if session == 1 && place == self.places.0 {
            self.meet(&self.first, &self.second);
        }
        if session == 2 && place == self.places.1 {
            self.meet(&self.second, &self.first);
        }
    }
}

const PRELUDE: &str =
    "category V vec 5\nregister V Kernel 20\nfinalise V\nobject V a = 2\nobject V b = 2\nlet f = V a -> b [1 2; 2 4]\n";

const PRELUDE_OUTPUT: &str =
    "V: vec 5\nV registers Kernel 20\nV final\nV#1: 2\na = V#1\nV#2: 2\nb = V#2\nf = V#1 -> V#2 [1 2; 2 4]\n";

const OTHER: &str =
    "category W vec 5\nregister W Kernel 20\nfinalise W\nobject W c = 2\nobject W d = 2\nlet g = W c -> d [1 2; 2 4]\n";

const OTHER_OUTPUT: &str =
    "W: vec 5\nW registers Kernel 20\nW final\nW#1: 2\nc = W#1\nW#2: 2\nd = W#2\ng = W#1 -> W#2 [1 2; 2 4]\n";

// How many entries of the first history tell a value that was kept, was there, or was found.
fn told(outcome: &Outcome) -> (u32, u32, u32) {
    let mut kept: u32 = 0;
    let mut hit: u32 = 0;
    let mut found: u32 = 0;
    for history in outcome.report.histories.as_slice().iter().take(1) {
        for entry in history.entries.as_slice() {
            match &entry.reply {
                Reply::Kept(_) => kept = kept.saturating_add(1),
                Reply::Hit(_) => hit = hit.saturating_add(1),
                Reply::Found(_) => found = found.saturating_add(1),
                _ => {}
            }
        }
    }
    (kept, hit, found)
}

// What `cap run --log` answers to a script at a meeting of its sessions, where the text begins so.
fn run_at<R: Abort + Threads + Wait + Sync>(
    rt: &R,
    alloc: Global,
    places: (GatePlace, GatePlace),
    input: &str,
    output: &str,
) -> Result<Outcome, Fail> {
    let gate = Meeting {
        places,
        first: AtomicU32::new(0),
        second: AtomicU32::new(0),
        gave_up: AtomicU32::new(0),
    };
    let mut source = SureSource::new(input.as_bytes().to_vec(alloc)?);
    let mut sink = SureSink::new(alloc)?;
    let words = vec![in alloc;
        String::from_str(alloc, "run")?,
        String::from_str(alloc, "--log")?,
    ]?;
    let outcome = cap(rt, alloc, &words, &mut source, &mut sink, &gate);
    assert_eq!(rt; outcome.status, Status::Ok);
    assert!(rt;
        sink.bytes().starts_with(output.as_bytes()),
        "the text of the run"
    );
    assert!(rt;
        gate.first.load(Ordering::SeqCst) > 0 && gate.second.load(Ordering::SeqCst) > 0,
        "both came"
    );
    assert_eq!(rt; gate.gave_up.load(Ordering::SeqCst), 0);
    Ok(outcome)
}

#[test]
fn sessions_meet_before_their_first_command(rt: HostRuntime) -> Result<(), Fail> {
    let alloc = rt.alloc();
    let sessions = "session s\nlet k = V Kernel f\nend\nsession t\nlet k = V Kernel f\nend\n";
    let lines =
        "session s\nV#3: 1\nk = V#3 -> V#1 [1 2]\nsession t\nV#3: 1\nk = V#3 -> V#1 [1 2]\n";
    let input = format!(in alloc; "{PRELUDE}{sessions}")?;
    let output = format!(in alloc;
        "{PRELUDE_OUTPUT}{lines}log V\n0 s0 register Kernel 20 -> done\n1 s0 finalise -> final\n"
    )?;
    let places = (GatePlace::Command(0), GatePlace::Command(0));
    let outcome = run_at(&rt, alloc, places, input.as_str(), output.as_str())?;
    let (kept, hit, found) = told(&outcome);
    assert_eq!(rt; kept, 1);
    assert_eq!(rt; hit.saturating_add(found), 1);
    Ok(())
}

#[test]
fn sessions_meet_behind_a_miss(rt: HostRuntime) -> Result<(), Fail> {
    let alloc = rt.alloc();
    let sessions = "session s\nlet k = V Kernel f\nend\nsession t\nlet k = V Kernel f\nend\n";
    let lines =
        "session s\nV#3: 1\nk = V#3 -> V#1 [1 2]\nsession t\nV#3: 1\nk = V#3 -> V#1 [1 2]\n";
    let input = format!(in alloc; "{PRELUDE}{sessions}")?;
    let output = format!(in alloc; "{PRELUDE_OUTPUT}{lines}log V\n")?;
    let places = (GatePlace::Missed(0), GatePlace::Missed(0));
    let outcome = run_at(&rt, alloc, places, input.as_str(), output.as_str())?;
    let (kept, hit, found) = told(&outcome);
    assert_eq!(rt; kept, 1);
    assert_eq!(rt; hit, 0);
    assert_eq!(rt; found, 1);
    Ok(())
}

#[test]
fn sessions_meet_in_the_turns_of_two_categories(rt: HostRuntime) -> Result<(), Fail> {
    let alloc = rt.alloc();
    let sessions = "session s\nlet k = V Kernel f\nend\nsession t\nlet l = W Kernel g\nend\n";
    let lines =
        "session s\nV#3: 1\nk = V#3 -> V#1 [1 2]\nsession t\nW#3: 1\nl = W#3 -> W#1 [1 2]\n";
    let input = format!(in alloc; "{PRELUDE}{OTHER}{sessions}")?;
    let output = format!(in alloc; "{PRELUDE_OUTPUT}{OTHER_OUTPUT}{lines}log V\n")?;
    let places = (GatePlace::Held(0), GatePlace::Held(1));
    run_at(&rt, alloc, places, input.as_str(), output.as_str())?;
    Ok(())
}
