// The program `cap`: its words, standard input and standard output are handed to the top call.
#![tactic(auto)]

use cap_io::{OpenGate, StdSink, StdSource};
use cap_top::{Status, cap};
use std::env::Env;
use std::io;
use std::process::ExitCode;

/// The words behind the program's name.
fn words_of<R: Env + AllocGlobal>(rt: &R) -> Result<Vec<String>, io::Error> {
    let mut words = Vec::new(rt.alloc());
    for word in std::env::args(rt)?.skip(1) {
        words.push(word)?;
    }
    Ok(words)
}

/// The same, where words that are no text are none that the program knows.
fn known_words<R: Env + AllocGlobal>(rt: &R) -> Result<Vec<String>, Status> {
    match words_of(rt) {
        Ok(words) => Ok(words),
        Err(e) if e.kind() == io::ErrorKind::OutOfMemory => Err(Status::NoMemory),
        Err(_) => Ok(Vec::new(rt.alloc())),
    }
}

fn main(rt: HostRuntime) -> ExitCode {
    let status = match known_words(&rt) {
        Ok(words) => {
            let mut source = StdSource::new(rt.stdin());
            let mut sink = StdSink::new(rt.stdout());
            cap(&rt, rt.alloc(), &words, &mut source, &mut sink, &OpenGate).status
        }
        Err(status) => status,
    };
    ExitCode::from(status.number())
}
