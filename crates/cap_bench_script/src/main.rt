// Times reading and printing scripts: each line of standard input is a size in bytes. It makes a script of that many bytes or a few more, and prints
// its size with the microseconds that `parse` and `print` took, and the number of its commands.
#![tactic(auto)]

use cap_script::{parse, print};
use std::alloc::{AllocError, Global};
use std::io;
use std::time::Instant;

/// A line that is repeated.
const LINE: &[u8] = b"let f = V a -> b [1 2 3 4; 5 6 7 8; -9 10 11 12]\n";

/// A script of so many bytes, or a few more.
fn script_of_size(alloc: Global, size: usize) -> Result<Vec<u8>, AllocError> {
    let mut text = Vec::new(alloc);
    'lines: for _ in 0..size / LINE.len() + 1 {
        text.extend_from_slice(LINE)?;
    }
    Ok(text)
}

/// Times one size.
fn time_size(rt: &HostRuntime, size: usize) -> io::Result<()> {
    let text = script_of_size(rt.alloc(), size)?;
    if text.len() > 1_000_000_000 {
        return Ok(());
    }
    let start = Instant::now(rt)?;
    let parsed = parse(rt.alloc(), &text);
    let parsing = start.elapsed(rt)?.as_micros();
    let Ok(script) = parsed else {
        return println!(rt; "{size}: no script");
    };
    let start = Instant::now(rt)?;
    let printed = print(rt.alloc(), &script);
    let printing = start.elapsed(rt)?.as_micros();
    let bytes = match printed {
        Ok(printed) => printed.len(),
        Err(_) => 0,
    };
    let commands = script.prelude.len();
    println!(rt; "{bytes} {parsing} {printing} {commands}")
}

fn main(rt: HostRuntime) -> io::Result<()> {
    for line in rt.lines(rt.alloc()) {
        let text = line?;
        let size = text.as_str().parse::<usize>().unwrap_or(0);
        time_size(&rt, size.min(16_777_216))?;
    }
    Ok(())
}
