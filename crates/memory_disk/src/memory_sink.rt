//! The sink in memory.
ghost use Rattle.std.specs.Prelude.{◌≡◌, ◌<◌, ◌≤◌, ◌-◌, ◌↔◌, [], min, length, IsErr, IfOk, Some};
ghost use Rattle.std.specs.Io.KnownBytes.{WriteAppends};
ghost use Rattle.log_disk.specs.Faults.{HasCause, raised};
ghost use Rattle.memory_disk.specs.Memory.{WriteFails};

use log_disk::{Failed, Sink};
use lsn_space::NoMemory;
use std::alloc::Global;
use std::marker::Model;

/// A sink in memory, with room for so many bytes. Its calls fail by number, and where no room is left.
#[derive(Drop)]
pub struct MemorySink {
    bytes: Vec<u8>,
    room: usize,
    failing: Vec<u64>,
    calls: u64,
    faults: u64,
}

impl Model for MemorySink {
    ghost use Rattle.std.specs.Prelude.{◌≤◌, length, vec_capacity};
    ghost use Rattle.memory_disk.specs.Memory.{SinkState};

    ghost Value = { SinkState };

    ghost view = { λ s. record {
      held = s.bytes.items;
      room = s.room;
      failing = s.failing.items;
      calls = s.calls;
      faults = s.faults;
    } };

    ghost invariant = { λ s. (s.room ≤ vec_capacity s.bytes) × (length s.bytes.items ≤ s.room) };
}

impl MemorySink {
    /// Room for `room` bytes in all; no write takes memory. The calls whose numbers are in `failing`
    /// fail, counted from 1.
    pub fn make(alloc: Global, room: usize, failing: &[u64]) -> Result<MemorySink, NoMemory>
        ensures held { IfOk result (λ sink. sink.held ≡ []) }
        ensures room { IfOk result (λ sink. sink.room ≡ room) }
        ensures failing { IfOk result (λ sink. sink.failing ≡ failing.now) }
        ensures calls { IfOk result (λ sink. sink.calls ≡ 0) }
        ensures faults { IfOk result (λ sink. sink.faults ≡ 0) }
    {
        let bytes = Vec::with_capacity(alloc, room).map_err(|_| NoMemory)?;
        let failing = Vec::from_slice(alloc, failing).map_err(|_| NoMemory)?;
        Ok(MemorySink {
            bytes,
            room,
            failing,
            calls: 0,
            faults: 0,
        })
    }

    pub fn bytes(&self) -> &[u8]
        ensures { result.now ≡ self.now.held }
    {
        self.bytes.as_slice()
    }
}

impl Sink for MemorySink {
    ghost held_bytes = { λ sink. Some sink.held };

    ghost faults = { λ sink. sink.faults };

    fn write(&mut self, piece: &[u8]) -> Result<usize, Failed>
        requires { 0 < length piece.now }
        ensures some { IfOk result (λ count. 0 < count) }
        ensures fits { IfOk result (λ count. count ≤ length piece.now) }
        ensures bytes { WriteAppends (Some self.old.held) (Some self.new.held) result piece.now }
        ensures cause { HasCause self.old.faults self.new.faults result }

        // Beside the trait's: it fails exactly where it was told to or is full, and takes as much as it can.
        ensures fails { IsErr result ↔ WriteFails self.old }
        ensures count { IfOk result (λ n. n ≡ min (length piece.now) (self.old.room - length self.old.held)) }
        ensures calls { self.new.calls ≡ raised self.old.calls }
        ensures room { self.new.room ≡ self.old.room }
        ensures failing { self.new.failing ≡ self.old.failing }
    {
        self.calls = self.calls.saturating_add(1);
        let is_full = self.bytes.len() >= self.room;
        if is_full || self.failing.contains(&self.calls) {
            self.faults = self.faults.saturating_add(1);
            return Err(Failed);
        }
        let count = piece.len().min(self.room - self.bytes.len());
        self.bytes.extend_from_slice(&piece[..count]).unwrap();
        Ok(count)
    }
}
