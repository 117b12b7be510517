//! The bytes of a source that were read and aren't passed yet.

ghost use Rattle.std.specs.Prelude.{◌≡◌, ◌⊎◌, ◌↔◌, ◌<◌, ◌≤◌, ◌++◌, [], true, false, ℕ, List, Option, length, drop, IsTrue, IfOk, OnOk, IsErrOf};
ghost use Rattle.std.specs.Io.KnownBytes.{Consumes, IsAtEnd};
ghost use Rattle.log_disk.specs.Faults.{CountsWhere};
ghost use Rattle.source_recovery.specs.Window.{DropsRest, HasPassed};
ghost use Rattle.source_recovery.specs.declared.window.TheConstants.{FULL};

use log_disk::{ReadFault, Source};
use lsn_space::NoMemory;
use segment_file::MOST_UNITS;
use std::alloc::Global;
use std::marker::Model;

/// How many bytes one read asks for.
const PIECE: usize = 65536;

/// As many bytes hold the longest front of a file, and the longest batch with its gate: a gate, the magic bytes, the number of units,
/// and `MOST_UNITS` units of eight bytes. A head has fewer.
pub const FULL: usize = 12 + 8 * MOST_UNITS as usize;

/// The bytes of a source that were read and aren't passed yet. Contracts see them, and whether the source has ended.
#[derive(Drop)]
pub struct Window {
    bytes: Vec<u8>,

    /// How many of the bytes are passed.
    at: usize,

    ended: bool,

    /// What a read reads into.
    piece: Vec<u8>,
}

impl Model for Window {
    ghost use Rattle.std.specs.Prelude.{◌<◌, ◌≤◌, drop, length};
    ghost use Rattle.source_recovery.specs.Window.{WindowView};

    ghost Value = { WindowView };

    ghost view = { λ w. record { ahead = drop w.at w.bytes.items; ended = w.ended } };

    ghost invariant = { λ w. (w.at ≤ length w.bytes.items) × (0 < length w.piece.items) };
}

impl Window {
    /// No bytes yet.
    pub fn make(alloc: Global) -> Result<Window, NoMemory>
        ensures { IfOk result (λ window. (window.ahead ≡ []) × (window.ended ≡ false)) }
    {
        let mut piece = Vec::new(alloc);
        if piece.resize(PIECE, 0).is_err() {
            return Err(NoMemory);
        }
        Ok(Window {
            bytes: Vec::new(alloc),
            at: 0,
            ended: false,
            piece,
        })
    }

    /// The bytes that aren't passed.
    pub fn ahead(&self) -> &[u8]
        ensures { result.now ≡ self.now.ahead }
    {
        self.bytes.as_slice().split_at(self.at).1
    }

    /// Whether the source has ended.
    pub fn has_ended(&self) -> bool
        ensures { result ≡ self.now.ended }
    {
        self.ended
    }

    /// Whether the bytes hold what they begin with, whatever follows them.
    pub fn is_full(&self) -> bool
        ensures { IsTrue result ↔ ((self.now.ended ≡ true) ⊎ (FULL ≤ length self.now.ahead)) }
    {
        self.ended || FULL <= self.bytes.len() - self.at
    }

    /// Passes so many bytes.
    pub fn pass(&mut self, count: usize)
        requires { count ≤ length self.old.ahead }
        ensures { self.new ≡ record self.old { ahead = drop count self.old.ahead } }
    {
        self.at += count;
    }

    /// Reads once, and adds the bytes. None are the end of the source.
    pub fn fill<S: Source>(&mut self, source: &mut S) -> Result<(), ReadFault>
        ensures read { OnOk result ((more : List ℕ) × Consumes (S.left source.old) (S.left source.new) more
            × (self.new.ahead ≡ self.old.ahead ++ more)) }
        ensures end { OnOk result (self.new.ended ≡ true → IsAtEnd (S.left source.new)) }
        ensures spent { OnOk result (self.new.ended ≡ false → S.read_allowance source.new < S.read_allowance source.old) }
        ensures faults { CountsWhere (IsErrOf result ReadFault.Failed) (S.faults source.old) (S.faults source.new) }
    {
        drop_front(&mut self.bytes, self.at);
        self.at = 0;
        let Ok(count) = source.read(self.piece.as_mut_slice()) else {
            return Err(ReadFault::Failed);
        };
        self.ended = count == 0;
        let read = self.piece.as_slice().split_at(count).0;
        match self.bytes.extend_from_slice(read) {
            Ok(()) => Ok(()),
            Err(_) => Err(ReadFault::NoMemory),
        }
    }

    /// Reads the source to its end, and drops the bytes.
    pub fn drop_rest<S: Source>(&mut self, source: &mut S) -> Result<(), ReadFault>
        ensures rest { OnOk result ((first : Option (List ℕ)) (passed : List ℕ) → HasPassed first (S.left source.old) self.old passed
            → DropsRest first (S.left source.new) self.old passed) }
        ensures faults { CountsWhere (IsErrOf result ReadFault.Failed) (S.faults source.old) (S.faults source.new) }
    {
        'reads: while !self.has_ended() {
            self.pass(self.ahead().len());
            self.fill(source)?;
        }
        Ok(())
    }
}

/// Drops the first bytes.
fn drop_front(bytes: &mut Vec<u8>, count: usize)
    requires { count ≤ length bytes.old.items }
    ensures { bytes.new.items ≡ drop count bytes.old.items }
{
    let left = bytes.len() - count;
    if count > 0 {
        bytes.copy_within(count.., 0);
        bytes.truncate(left);
    }
}
