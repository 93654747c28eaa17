// A source and a sink over bytes in memory, whose calls fail as a list says.
ghost use Rattle.std.specs.Prelude.{◌≡◌, ◌<◌, ◌≤◌, ◌↔◌, [], Some, length, IsErr, IfOk, OnOk, OnErr, Contains};
ghost use Rattle.std.specs.Io.{ReadsAtMost, WritesAtMost};
ghost use Rattle.std.specs.Io.KnownBytes.{ReadConsumes};
ghost use Rattle.cap_io.specs.Faults.{HasRisen};
ghost use Rattle.cap_io.specs.Reading.{TellsAlike};
ghost use Rattle.cap_io.specs.Writing.{GiveAdds};
ghost use Rattle.cap_io.specs.Memory.{failed_feed, feed_count, fed, TrayFails, failed_tray, tray_count, filled};

use super::errors::{Failed, NoMemory};
use super::sinks::Sink;
use super::sources::Source;
use std::alloc::Global;
use std::marker::Model;

/// A source over bytes in memory. Its calls are numbered from 0 (all from call 2^64 - 1 on have that number).
#[derive(Debug, Drop)]
pub struct MemSource {
    bytes: Vec<u8>,
    at: usize,
    most: usize,
    fail: Vec<u64>,
    made: u64,
    failures: u64,
}

impl Model for MemSource {
    ghost use Rattle.std.specs.Prelude.{◌≤◌, drop, vec_len};
    ghost use Rattle.cap_io.specs.Memory.{Feed};

    ghost Value = { Feed };

    ghost view = { λ s. record {
      left = drop s.at s.bytes.items;
      piece = s.most;
      failing = s.fail.items;
      calls = s.made;
      faults = s.failures;
    } };

    ghost invariant = { λ s. (s.at ≤ vec_len s.bytes) × (1 ≤ s.most) };
}

impl MemSource {
    /// Gives these bytes, at most `piece` in a call; the calls whose numbers are in `fail` fail.
    pub fn new(bytes: Vec<u8>, piece: usize, fail: Vec<u64>) -> MemSource
        requires { 1 ≤ piece }
        ensures left { result.left ≡ bytes.items }
        ensures piece { result.piece ≡ piece }
        ensures failing { result.failing ≡ fail.items }
        ensures calls { result.calls ≡ 0 }
        ensures faults { result.faults ≡ 0 }
    {
        MemSource {
            bytes,
            at: 0,
            most: piece,
            fail,
            made: 0,
            failures: 0,
        }
    }
}

impl Source for MemSource {
    ghost left = { λ s. Some s.left };

    ghost faults = { λ s. s.faults };

    fn take(&mut self, buf: &mut [u8]) -> Result<usize, Failed>
        ensures within { ReadsAtMost result buf.new }
        ensures taken { ReadConsumes (Some self.old.left) (Some self.new.left) result buf.new }
        ensures told { TellsAlike (Some self.old.left) (Some self.new.left) }
        ensures counted { self.old.faults ≤ self.new.faults }
        ensures stays { OnOk result (self.new.faults ≡ self.old.faults) }
        ensures fault { OnErr result (HasRisen self.old.faults self.new.faults) }
        ensures fails { IsErr result ↔ Contains self.old.failing self.old.calls }
        ensures failed { OnErr result (self.new ≡ failed_feed self.old) }
        ensures count { IfOk result (λ n. n ≡ feed_count self.old (length buf.old)) }
        ensures moved { IfOk result (λ n. self.new ≡ fed self.old n) }
    {
        let call = self.made;
        self.made = call.saturating_add(1);
        if self.fail.contains(&call) {
            self.failures = self.failures.saturating_add(1);
            return Err(Failed);
        }
        let rest = &self.bytes[self.at..];
        let count = self.most.min(buf.len()).min(rest.len());
        buf[..count].copy_from_slice(&rest[..count]);
        self.at += count;
        Ok(count)
    }
}

/// A sink over bytes in memory, with a fixed space. Its calls are numbered as those of a `MemSource`.
#[derive(Debug, Drop)]
pub struct MemSink {
    bytes: Vec<u8>,
    most: usize,
    size: usize,
    fail: Vec<u64>,
    made: u64,
    failures: u64,
}

impl Model for MemSink {
    ghost use Rattle.std.specs.Prelude.{◌≤◌, vec_len, vec_capacity};
    ghost use Rattle.cap_io.specs.Memory.{Tray};

    ghost Value = { Tray };

    ghost view = { λ s. record {
      written = s.bytes.items;
      piece = s.most;
      space = s.size;
      failing = s.fail.items;
      calls = s.made;
      faults = s.failures;
    } };

    ghost invariant = { λ s. (vec_len s.bytes ≤ s.size) × (s.size ≤ vec_capacity s.bytes) × (1 ≤ s.most) };
}

impl MemSink {
    /// Takes space for `space` bytes at once, and then at most `piece` bytes in a call; the calls whose
    /// numbers are in `fail` fail, and so do those that find no space.
    pub fn new(
        alloc: Global,
        piece: usize,
        space: usize,
        fail: Vec<u64>,
    ) -> Result<MemSink, NoMemory>
        requires { 1 ≤ piece }
        ensures written { IfOk result (λ s. s.written ≡ []) }
        ensures piece { IfOk result (λ s. s.piece ≡ piece) }
        ensures space { IfOk result (λ s. s.space ≡ space) }
        ensures failing { IfOk result (λ s. s.failing ≡ fail.items) }
        ensures calls { IfOk result (λ s. s.calls ≡ 0) }
        ensures faults { IfOk result (λ s. s.faults ≡ 0) }
    {
        let Ok(bytes) = Vec::with_capacity(alloc, space) else {
            return Err(NoMemory);
        };
        Ok(MemSink {
            bytes,
            most: piece,
            size: space,
            fail,
            made: 0,
            failures: 0,
        })
    }

    /// The bytes written so far.
    pub fn bytes(&self) -> &[u8]
        ensures { result.now ≡ self.now.written }
    {
        self.bytes.as_slice()
    }
}

impl Sink for MemSink {
    ghost written = { λ s. Some s.written };

    ghost faults = { λ s. s.faults };

    fn give(&mut self, bytes: &[u8]) -> Result<usize, Failed>
        ensures within { WritesAtMost result bytes.now }
        ensures progress { IfOk result (λ n. 0 < length bytes.now → 0 < n) }
        ensures added { GiveAdds (Some self.old.written) (Some self.new.written) result bytes.now }
        ensures counted { self.old.faults ≤ self.new.faults }
        ensures stays { OnOk result (self.new.faults ≡ self.old.faults) }
        ensures fault { OnErr result (HasRisen self.old.faults self.new.faults) }
        ensures fails { IsErr result ↔ TrayFails self.old bytes.now }
        ensures failed { OnErr result (self.new ≡ failed_tray self.old) }
        ensures count { IfOk result (λ n. n ≡ tray_count self.old bytes.now) }
        ensures moved { IfOk result (λ n. self.new ≡ filled self.old n bytes.now) }
    {
        let call = self.made;
        self.made = call.saturating_add(1);
        let room = self.size - self.bytes.len();
        let is_full = room == 0 && !bytes.is_empty();
        if is_full || self.fail.contains(&call) {
            self.failures = self.failures.saturating_add(1);
            return Err(Failed);
        }
        let count = self.most.min(bytes.len()).min(room);
        self.bytes.extend_from_slice(&bytes[..count]).unwrap();
        Ok(count)
    }
}
