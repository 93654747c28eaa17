// The trusted edge: any reader as a source, and any writer as a sink.
ghost use Rattle.std.specs.Prelude.{◌≡◌, ◌<◌, ◌≤◌, None, length, IfOk, OnOk, OnErr};
ghost use Rattle.std.specs.Io.{ReadsAtMost, WritesAtMost};
ghost use Rattle.std.specs.Io.KnownBytes.{ReadConsumes, WriteAppends};
ghost use Rattle.cap_io.specs.Faults.{HasRisen, next_count};
ghost use Rattle.cap_io.specs.Reading.{TellsAlike};
ghost use Rattle.cap_io.specs.Writing.{GiveAdds};

use super::errors::Failed;
use super::sinks::Sink;
use super::sources::Source;
use std::io::{Read, Write};
use std::marker::Model;

/// A reader as a source, as standard input. As a source it tells no bytes. Its count of faults starts
/// at 0, rises at each Err of the reader, and stays at 2^64 - 1.
#[derive(Drop)]
pub struct StdSource<R: Read> {
    reader: R,
    failures: u64,
}

impl<R: Read> Model for StdSource<R> {
    ghost use Rattle.cap_io.specs.System.{Channel};

    ghost Value = { Channel };

    ghost view = { λ s. record { faults = s.failures; known = R.remaining s.reader } };
}

impl<R: Read> StdSource<R> {
    /// Reads from this reader.
    pub fn new(reader: R) -> StdSource<R>
        ensures faults { result.faults ≡ 0 }
        ensures known { result.known ≡ R.remaining reader }
    {
        StdSource {
            reader,
            failures: 0,
        }
    }
}

impl<R: Read> Source for StdSource<R> {
    ghost left = { λ _. None };

    ghost faults = { λ s. s.faults };

    fn take(&mut self, buf: &mut [u8]) -> Result<usize, Failed>
        ensures within { ReadsAtMost result buf.new }
        ensures taken { ReadConsumes None None result buf.new }
        ensures told { TellsAlike None None }
        ensures counted { self.old.faults ≤ self.new.faults }
        ensures stays { OnOk result (self.new.faults ≡ self.old.faults) }
        ensures fault { OnErr result (HasRisen self.old.faults self.new.faults) }

        // One read of the reader, and a fault at each Err of it.
        ensures read { ReadConsumes self.old.known self.new.known result buf.new }
        ensures rises { OnErr result (self.new.faults ≡ next_count self.old.faults) }
    {
        match self.reader.read(buf) {
            Ok(count) => Ok(count),
            Err(_) => {
                self.failures = self.failures.saturating_add(1);
                Err(Failed)
            }
        }
    }
}

/// A writer as a sink, as standard output. As a sink it tells no bytes. Its count of faults starts at 0,
/// rises at each Err of the writer and at each `write` that took no byte of a piece that has some.
/// Nothing is flushed: hand in a writer that keeps nothing back, as standard output, or flush it later.
#[derive(Drop)]
pub struct StdSink<W: Write> {
    writer: W,
    failures: u64,
}

impl<W: Write> Model for StdSink<W> {
    ghost use Rattle.cap_io.specs.System.{Channel};

    ghost Value = { Channel };

    ghost view = { λ s. record { faults = s.failures; known = W.contents s.writer } };
}

impl<W: Write> StdSink<W> {
    /// Writes to this writer.
    pub fn new(writer: W) -> StdSink<W>
        ensures faults { result.faults ≡ 0 }
        ensures known { result.known ≡ W.contents writer }
    {
        StdSink {
            writer,
            failures: 0,
        }
    }
}

impl<W: Write> Sink for StdSink<W> {
    ghost written = { λ _. None };

    ghost faults = { λ s. s.faults };

    fn give(&mut self, bytes: &[u8]) -> Result<usize, Failed>
        ensures within { WritesAtMost result bytes.now }
        ensures progress { IfOk result (λ n. 0 < length bytes.now → 0 < n) }
        ensures added { GiveAdds None None result bytes.now }
        ensures counted { self.old.faults ≤ self.new.faults }
        ensures stays { OnOk result (self.new.faults ≡ self.old.faults) }
        ensures fault { OnErr result (HasRisen self.old.faults self.new.faults) }

        // One write of the writer, and a fault at each Err of it and at each that took no byte.
        ensures written { WriteAppends self.old.known self.new.known result bytes.now }
        ensures rises { OnErr result (self.new.faults ≡ next_count self.old.faults) }
    {
        match self.writer.write(bytes) {
            Ok(count) if 0 < count || bytes.is_empty() => Ok(count),
            _ => {
                self.failures = self.failures.saturating_add(1);
                Err(Failed)
            }
        }
    }
}
