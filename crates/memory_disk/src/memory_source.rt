//! The source in memory.
ghost use Rattle.std.specs.Prelude.{◌≡◌, ◌<◌, ◌≤◌, ◌+◌, ◌++◌, ◌↔◌, min, take, drop, length, IsErr, IfOk, Some};
ghost use Rattle.std.specs.Io.{ReadsAtMost};
ghost use Rattle.std.specs.Io.KnownBytes.{ReadConsumes};
ghost use Rattle.log_disk.specs.Faults.{HasCause, raised};
ghost use Rattle.log_disk.specs.Streams.{SpendsAllowance};
ghost use Rattle.memory_disk.specs.Memory.{ReadFails};

use log_disk::{Failed, READ_ALLOWANCE, Source};
use lsn_space::NoMemory;
use std::alloc::Global;
use std::marker::Model;

/// A source over bytes in memory. It gives at most so many at a time, and its calls fail by number.
#[derive(Drop)]
pub struct MemorySource {
    bytes: Vec<u8>,
    at: usize,
    piece: usize,
    failing: Vec<u64>,
    calls: u64,
    read_allowance: u64,
    faults: u64,
}

impl Model for MemorySource {
    ghost use Rattle.std.specs.Prelude.{◌<◌, ◌≤◌, length, drop};
    ghost use Rattle.memory_disk.specs.Memory.{SourceState};

    ghost Value = { SourceState };

    ghost view = { λ s. record {
      left = drop s.at s.bytes.items;
      piece = s.piece;
      failing = s.failing.items;
      calls = s.calls;
      read_allowance = s.read_allowance;
      faults = s.faults;
    } };

    ghost invariant = { λ s. (s.at ≤ length s.bytes.items) × (0 < s.piece) };
}

impl MemorySource {
    /// Gives the bytes in pieces of at most `piece`. The calls whose numbers are in `failing` fail,
    /// counted from 1.
    pub fn make(
        alloc: Global,
        bytes: &[u8],
        piece: usize,
        failing: &[u64],
    ) -> Result<MemorySource, NoMemory>
        requires { 0 < piece }
        ensures left { IfOk result (λ source. source.left ≡ bytes.now) }
        ensures piece { IfOk result (λ source. source.piece ≡ piece) }
        ensures failing { IfOk result (λ source. source.failing ≡ failing.now) }
        ensures calls { IfOk result (λ source. source.calls ≡ 0) }
        ensures allowance { IfOk result (λ source. source.read_allowance ≡ READ_ALLOWANCE) }
        ensures faults { IfOk result (λ source. source.faults ≡ 0) }
    {
        let bytes = Vec::from_slice(alloc, bytes).map_err(|_| NoMemory)?;
        let failing = Vec::from_slice(alloc, failing).map_err(|_| NoMemory)?;
        Ok(MemorySource {
            bytes,
            at: 0,
            piece,
            failing,
            calls: 0,
            read_allowance: READ_ALLOWANCE,
            faults: 0,
        })
    }
}

impl Source for MemorySource {
    ghost left = { λ source. Some source.left };

    ghost read_allowance = { λ source. source.read_allowance };

    ghost faults = { λ source. source.faults };

    fn read(&mut self, buf: &mut [u8]) -> Result<usize, Failed>
        requires { 0 < length buf.old }
        ensures fits { ReadsAtMost result buf.new }
        ensures bytes { ReadConsumes (Some self.old.left) (Some self.new.left) result buf.new }
        ensures allowance { SpendsAllowance self.old.read_allowance self.new.read_allowance result }
        ensures spent { self.old.read_allowance ≡ 0 → IsErr result }
        ensures cause { HasCause self.old.faults self.new.faults result }

        // Beside the trait's: it fails exactly where it was told to or the allowance is 0, and gives as much as it may.
        ensures fails { IsErr result ↔ ReadFails self.old }
        ensures count { IfOk result (λ n. n ≡ min (min (length self.old.left) self.old.piece) (length buf.old)) }
        ensures calls { self.new.calls ≡ raised self.old.calls }
        ensures piece { self.new.piece ≡ self.old.piece }
        ensures failing { self.new.failing ≡ self.old.failing }
    {
        self.calls = self.calls.saturating_add(1);
        if self.read_allowance == 0 || self.failing.contains(&self.calls) {
            self.faults = self.faults.saturating_add(1);
            return Err(Failed);
        }
        let count = give(buf, &self.bytes, self.at, self.piece);
        if count > 0 {
            self.read_allowance -= 1;
        }
        self.at += count;
        Ok(count)
    }
}

/// Copies at most `most` bytes from a place on, and tells how many.
fn give(buf: &mut [u8], bytes: &[u8], at: usize, most: usize) -> usize
    requires within { at ≤ length bytes.now }
    ensures count { result ≡ min (min (length (drop at bytes.now)) most) (length buf.old) }
    ensures given { drop at bytes.now ≡ take result buf.new ++ drop (at + result) bytes.now }
    ensures in_bytes { at + result ≤ length bytes.now }
{
    let rest = bytes.split_at(at).1;
    let count = rest.len().min(most).min(buf.len());
    buf[..count].copy_from_slice(rest.split_at(count).0);
    count
}
