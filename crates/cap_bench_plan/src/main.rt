// Times the certificates of a script: the first line of standard input is a number of runs, and the others are the script. It prints the bytes of the
// certificates with the microseconds that a run took: of parsing, checking and planning together, and of planning alone.
#![tactic(auto)]

ghost use Rattle.std.specs.Prelude.{◌≤◌, length};

use cap_check::{Checked, check};
use cap_registered::certificates;
use cap_script::parse;
use std::alloc::Global;
use std::io;
use std::time::Instant;

/// The checked form of a script, where it is sound.
fn checked(alloc: Global, text: &[u8]) -> Option<Checked>
    requires { length text.now ≤ 1_000_000_000 }
{
    let Ok(script) = parse(alloc, text) else {
        return None;
    };
    let Ok(script) = check(alloc, script) else {
        return None;
    };
    Some(script)
}

/// How many bytes the certificates have.
fn planned(alloc: Global, script: &Checked) -> usize {
    match certificates(alloc, script) {
        Ok(text) => text.len(),
        Err(_) => 0,
    }
}

/// Times so many runs.
fn time_runs(rt: &HostRuntime, text: &[u8], runs: u32) -> io::Result<()>
    requires length { length text.now ≤ 1_000_000_000 }
    requires runs { 1 ≤ runs }
{
    let Some(script) = checked(rt.alloc(), text) else {
        return println!(rt; "no sound script");
    };
    let start = Instant::now(rt)?;
    for _ in 0..runs {
        if let Some(script) = checked(rt.alloc(), text) {
            planned(rt.alloc(), &script);
        }
    }
    let whole = start.elapsed(rt)?.as_micros() / runs as u128;
    let start = Instant::now(rt)?;
    for _ in 1..runs {
        planned(rt.alloc(), &script);
    }
    let bytes = planned(rt.alloc(), &script);
    let planning = start.elapsed(rt)?.as_micros() / runs as u128;
    println!(rt; "{bytes} {whole} {planning}")
}

fn main(rt: HostRuntime) -> io::Result<()> {
    let mut runs = 0;
    let mut text = Vec::new(rt.alloc());
    for line in rt.lines(rt.alloc()) {
        let line = line?;
        if runs == 0 {
            runs = line
                .as_str()
                .parse::<u32>()
                .unwrap_or(1)
                .clamp(1, 1_000_000);
        } else {
            text.extend_from_slice(line.as_bytes())?;
            text.push(b'\n')?;
        }
    }
    if runs > 0 && text.len() <= 1_048_576 {
        time_runs(&rt, &text, runs)?;
    }
    Ok(())
}
