// A source and a sink over bytes in memory that never fail.
ghost use Rattle.std.specs.Prelude.{◌≡◌, ◌<◌, [], Some, Ok, false, length, drop, min, IfOk};
ghost use Rattle.std.specs.Io.{ReadsAtMost, WritesAtMost};
ghost use Rattle.std.specs.Io.KnownBytes.{ReadConsumes};
ghost use Rattle.cap_io.specs.Reading.{TellsAlike};
ghost use Rattle.cap_io.specs.Writing.{GiveAdds};
ghost use Rattle.cap_io.specs.Sure.{told_by, spooled};

use super::errors::{Failed, NoMemory};
use super::sinks::Sink;
use super::sources::Source;
use std::alloc::Global;
use std::marker::Model;

/// How many bytes a `SureSink` keeps.
pub const SURE_SPACE: usize = 16_777_216;

/// A source over bytes in memory that never fails. Contracts see it as the bytes left.
#[derive(Debug, Drop)]
pub struct SureSource {
    bytes: Vec<u8>,
    at: usize,
}

impl Model for SureSource {
    ghost use Rattle.std.specs.Prelude.{ℕ, ◌≤◌, List, drop, vec_len};

    ghost Value = { List ℕ };

    ghost view = { λ s. drop s.at s.bytes.items };

    ghost invariant = { λ s. s.at ≤ vec_len s.bytes };
}

impl SureSource {
    /// Gives these bytes.
    pub fn new(bytes: Vec<u8>) -> SureSource
        ensures { result ≡ bytes.items }
    {
        SureSource { bytes, at: 0 }
    }
}

impl Source for SureSource {
    ghost left = { λ s. Some s };

    ghost faults = { λ _. 0 };

    fn take(&mut self, buf: &mut [u8]) -> Result<usize, Failed>
        ensures within { ReadsAtMost result buf.new }
        ensures taken { ReadConsumes (Some self.old) (Some self.new) result buf.new }
        ensures told { TellsAlike (Some self.old) (Some self.new) }
        ensures count { result ≡ Ok (min (length buf.old) (length self.old)) }
        ensures moved { self.new ≡ drop (min (length buf.old) (length self.old)) self.old }
    {
        let rest = &self.bytes[self.at..];
        let count = buf.len().min(rest.len());
        buf[..count].copy_from_slice(&rest[..count]);
        self.at += count;
        Ok(count)
    }
}

/// A sink that never fails. It keeps the first `SURE_SPACE` bytes, and tells them until it drops one.
#[derive(Debug, Drop)]
pub struct SureSink {
    bytes: Vec<u8>,
    has_dropped: bool,
}

impl Model for SureSink {
    ghost use Rattle.std.specs.Prelude.{◌≡◌, ◌≤◌, true, vec_len, vec_capacity};
    ghost use Rattle.cap_io.specs.Sure.{Spool, sure_space};

    ghost Value = { Spool };

    ghost view = { λ s. record { kept = s.bytes.items; lost = s.has_dropped } };

    ghost invariant = { λ s. (vec_len s.bytes ≤ sure_space) × (sure_space ≤ vec_capacity s.bytes)
        × (s.has_dropped ≡ true → vec_len s.bytes ≡ sure_space) };
}

impl SureSink {
    /// Takes the whole space at once.
    pub fn new(alloc: Global) -> Result<SureSink, NoMemory>
        ensures kept { IfOk result (λ s. s.kept ≡ []) }
        ensures lost { IfOk result (λ s. s.lost ≡ false) }
    {
        let Ok(bytes) = Vec::with_capacity(alloc, SURE_SPACE) else {
            return Err(NoMemory);
        };
        Ok(SureSink {
            bytes,
            has_dropped: false,
        })
    }

    /// The bytes kept, which are all that were written as long as none was dropped.
    pub fn bytes(&self) -> &[u8]
        ensures { result.now ≡ self.now.kept }
    {
        self.bytes.as_slice()
    }
}

impl Sink for SureSink {
    ghost written = { λ s. told_by s.lost s.kept };

    ghost faults = { λ _. 0 };

    fn give(&mut self, bytes: &[u8]) -> Result<usize, Failed>
        ensures within { WritesAtMost result bytes.now }
        ensures progress { IfOk result (λ n. 0 < length bytes.now → 0 < n) }
        ensures added { GiveAdds (told_by self.old.lost self.old.kept) (told_by self.new.lost self.new.kept) result bytes.now }
        ensures count { result ≡ Ok (length bytes.now) }
        ensures spooled { self.new ≡ spooled self.old bytes.now }
    {
        let room = SURE_SPACE - self.bytes.len();
        let count = bytes.len().min(room);
        if count < bytes.len() {
            self.has_dropped = true;
        }
        self.bytes.extend_from_slice(&bytes[..count]).unwrap();
        Ok(bytes.len())
    }
}
