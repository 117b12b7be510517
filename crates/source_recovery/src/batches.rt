//! The batches of a log that a source gives, one by one.

ghost use Rattle.std.specs.Prelude.{◌≡◌, ◌<◌, ◌≤◌, ◌+◌, ◌++◌, ◌∷◌, true, false, [], ℕ, List, Option, length, drop, IsTrue, IfOk, IfErr, IfSome, IfNone, OnOk, IsErrOf};
ghost use Rattle.log_disk.specs.Faults.{CountsWhere};
ghost use Rattle.log_record.specs.declared.units.TheConstants.{LONGEST_RECORD};
ghost use Rattle.segment_file.specs.File.{BeginsOpen, HasNoBatch};
ghost use Rattle.segment_file.specs.Log.{Log};
ghost use Rattle.segment_file.specs.Scan.{IsScanFaultOf};
ghost use Rattle.segment_file.specs.StandingLog.{tail_at};
ghost use Rattle.segment_file.specs.Taking.{TakesFront};
ghost use Rattle.segment_file.specs.declared.layout.TheConstants.{OPEN};
ghost use Rattle.source_recovery.specs.Ahead.{TakesGated, TellsNext};
ghost use Rattle.source_recovery.specs.Reading.{HasReadLog, ReadsBatch, ReadsEnd};
ghost use Rattle.source_recovery.specs.ReadingFaults.{IsReadingFaultOf, told_fault};
ghost use Rattle.source_recovery.specs.Window.{HasPassed};
ghost use Rattle.source_recovery.specs.declared.batches.ReadingFault.TheVariants as reading;

use crate::window::Window;
use log_disk::{ReadFault, Source};
use lsn_space::{Lsn, NoMemory, Opening};
use segment_file::{BatchFault, ScanFault, Tail, after_gate, take_batch, take_front};
use std::alloc::Global;
use std::marker::Model;

/// Why no more of a log is read.
#[derive(Clone, Copy, Debug, PartialEq, Eq)]
pub enum ReadingFault {
    /// A read failed.
    Failed,

    NoMemory,

    /// The bytes have this fault, which is no want of memory.
    Bytes(ScanFault),
}

impl From<ReadFault> for ReadingFault {
    ghost from_gives = { λ fault told. told ≡ told_fault fault };

    fn from(fault: ReadFault) -> Self {
        match fault {
            ReadFault::Failed => ReadingFault::Failed,
            ReadFault::NoMemory => ReadingFault::NoMemory,
        }
    }
}

impl From<NoMemory> for ReadingFault {
    ghost from_gives = { λ _ told. told ≡ reading.NoMemory };

    fn from(_: NoMemory) -> Self {
        ReadingFault::NoMemory
    }
}

/// Reads the batches of a log one by one. Contracts see the window on the source, how many bytes are passed, and the LSN at which the
/// batches that were taken end.
#[derive(Drop)]
pub struct LogReader {
    window: Window,
    at: u64,
    next: Lsn,
}

impl Model for LogReader {
    ghost use Rattle.std.specs.Prelude.{◌≤◌, ◌+◌, ◌*◌};
    ghost use Rattle.source_recovery.specs.Reading.{ReaderView};

    ghost Value = { ReaderView };

    ghost view = { λ r. record { window = r.window; at = r.at; next = r.next } };

    // A front has at most 65536 bytes and 8 for each unit, a batch and its gate at most 13 for each.
    ghost invariant = { λ r. r.at ≤ 65536 + 13 * r.next };
}

impl LogReader {
    /// Reads what the log begins with: a reader behind it, what stands before the list, and the first units of the list. Where the
    /// bytes begin with no front the source is read to its end.
    pub fn begin<S: Source>(
        alloc: Global,
        source: &mut S,
    ) -> Result<(LogReader, Opening, Vec<u64>), ReadingFault>
        ensures found { IfOk result (λ r. HasReadLog (S.left source.old) (S.left source.new) r.0
            (record { opening = r.1; units = r.2.items })) }
        ensures fault { IfErr result (IsReadingFaultOf (S.left source.old) (S.left source.new)) }
        ensures failed { CountsWhere (IsErrOf result ReadingFault.Failed) (S.faults source.old) (S.faults source.new) }
    {
        let mut window = Window::make(alloc)?;
        'fills: loop {
            let fault = match front_of(alloc, window.ahead()) {
                Ok((opening, units, count)) => {
                    window.pass(count);
                    let next = Lsn::new(opening.lsn.units() + units.len() as u32);
                    let at = count as u64;
                    return Ok((LogReader { window, at, next }, opening, units));
                }
                Err(fault) => fault,
            };
            if let ScanFault::NoMemory = fault {
                return Err(ReadingFault::NoMemory);
            }
            if is_final(&window, fault) {
                window.drop_rest(source)?;
                return Err(ReadingFault::Bytes(fault));
            }
            window.fill(source)?;
        }
    }

    /// Reads the next batch, adds its units, and answers true; false where the gate that follows isn't open, and then the source is read
    /// to its end. The units are the last ones of the log.
    pub fn next_batch<S: Source>(
        &mut self,
        source: &mut S,
        units: &mut Vec<u64>,
    ) -> Result<bool, ReadingFault>
        requires { length units.old.items ≤ self.old.next }
        ensures batch { IfOk result (λ some. some ≡ true
            → ReadsBatch (S.left source.old) (S.left source.new) self.old self.new units.old.items units.new.items) }
        ensures end { IfOk result (λ some. some ≡ false
            → ReadsEnd (S.left source.old) (S.left source.new) self.old self.new units.old.items units.new.items) }
        ensures fault { IfErr result (λ fault. (first : Option (List ℕ)) (log : Log) → HasReadLog first (S.left source.old) self.old log
            → IsReadingFaultOf first (S.left source.new) fault) }
        ensures failed { CountsWhere (IsErrOf result ReadingFault.Failed) (S.faults source.old) (S.faults source.new) }
    {
        await_next(&mut self.window, source)?;
        let begin = Lsn::new(self.next.units() - units.len() as u32);
        match take_gated(begin, units, self.window.ahead()) {
            Ok(Some(count)) => {
                self.window.pass(count);
                self.at += count as u64;
                self.next = Lsn::new(begin.units() + units.len() as u32);
                Ok(true)
            }
            Ok(None) => {
                self.window.drop_rest(source)?;
                Ok(false)
            }
            Err(BatchFault::Bad) => {
                self.window.drop_rest(source)?;
                let offset = self.at;
                Err(ReadingFault::Bytes(ScanFault::BadBatch { offset }))
            }
            Err(BatchFault::NoMemory) => Err(ReadingFault::NoMemory),
        }
    }

    /// The same behind units of which few are left: so no more of a log is kept than a batch.
    pub fn next_behind_few<S: Source>(
        &mut self,
        source: &mut S,
        units: &mut Vec<u64>,
    ) -> Result<bool, ReadingFault>
        requires next { length units.old.items ≤ self.old.next }
        requires few { length units.old.items < LONGEST_RECORD }
        ensures batch { IfOk result (λ some. some ≡ true
            → ReadsBatch (S.left source.old) (S.left source.new) self.old self.new units.old.items units.new.items) }
        ensures end { IfOk result (λ some. some ≡ false
            → ReadsEnd (S.left source.old) (S.left source.new) self.old self.new units.old.items units.new.items) }
        ensures fault { IfErr result (λ fault. (first : Option (List ℕ)) (log : Log) → HasReadLog first (S.left source.old) self.old log
            → IsReadingFaultOf first (S.left source.new) fault) }
        ensures failed { CountsWhere (IsErrOf result ReadingFault.Failed) (S.faults source.old) (S.faults source.new) }
    {
        self.next_batch(source, units)
    }

    /// The place and the LSN at which the batches that were taken end.
    pub fn tail(&self) -> Tail
        ensures { result ≡ tail_at self.now.at self.now.next }
    {
        Tail {
            at: self.at,
            next: self.next,
        }
    }
}

/// What the bytes begin with, up to the second gate, and how many bytes it has.
fn front_of(alloc: Global, bytes: &[u8]) -> Result<(Opening, Vec<u64>, usize), ScanFault>
    ensures within { IfOk result (λ front. front.2 ≤ length bytes.now) }
    ensures found { IfOk result (λ front. TakesFront bytes.now front.0 front.1.items (drop front.2 bytes.now)) }
    ensures fault { IfErr result (IsScanFaultOf bytes.now) }
{
    match take_front(alloc, bytes) {
        Ok(front) => {
            let count = bytes.len() - front.rest.len();
            Ok((front.opening, front.units, count))
        }
        Err(fault) => Err(fault),
    }
}

/// Whether a fault of the window's bytes is a fault of all bytes. A full window tells what a front has wrong; a bad batch behind a front
/// is none of that.
fn is_final(window: &Window, fault: ScanFault) -> bool
    ensures stays { IsTrue result → (rest : List ℕ) → (window.now.ended ≡ true → rest ≡ [])
        → IsScanFaultOf window.now.ahead fault → IsScanFaultOf (window.now.ahead ++ rest) fault }
    ensures goes_on { result ≡ false → window.now.ended ≡ false }
{
    match fault {
        ScanFault::BadBatch { offset } if offset > 0 => window.has_ended(),
        _ => window.is_full(),
    }
}

/// Reads until the window tells what follows.
fn await_next<S: Source>(window: &mut Window, source: &mut S) -> Result<(), ReadFault>
    ensures passed { OnOk result ((first : Option (List ℕ)) (passed : List ℕ) → HasPassed first (S.left source.old) window.old passed
        → HasPassed first (S.left source.new) window.new passed) }
    ensures tells { OnOk result ((rest : List ℕ) → (window.new.ended ≡ true → rest ≡ []) → TellsNext window.new.ahead rest) }
    ensures faults { CountsWhere (IsErrOf result ReadFault.Failed) (S.faults source.old) (S.faults source.new) }
{
    'fills: while !window.is_full() && !has_next(window.ahead()) {
        window.fill(source)?;
    }
    Ok(())
}

/// True only where the bytes tell whether a gate is open, and hold the whole batch behind it, if there is one, whatever follows.
fn has_next(bytes: &[u8]) -> bool
    ensures { result ≡ true → (rest : List ℕ) → TellsNext bytes.now rest }
{
    match after_gate(bytes) {
        Some([a, b, c, d, units @ ..]) => {
            8 * u32::from_be_bytes([*a, *b, *c, *d]) as usize <= units.len()
        }
        Some(_) => false,
        None => bytes.len() > 1,
    }
}

/// Adds the units of the batch behind the open gate that the bytes begin with to those of a log that begins at that LSN, and answers how
/// many bytes these are; `None` where the gate isn't open.
fn take_gated(begin: Lsn, units: &mut Vec<u64>, bytes: &[u8]) -> Result<Option<usize>, BatchFault>
    ensures taken { IfOk result (λ taken. IfSome taken (TakesGated begin units.old.items bytes.now units.new.items)) }
    ensures none { IfOk result (λ taken. IfNone taken ((units.new.items ≡ units.old.items) × (BeginsOpen bytes.now → ⊥))) }
    ensures bad { IsErrOf result BatchFault.Bad → (body : List ℕ) × (bytes.now ≡ OPEN ∷ body) × (0 < length body)
        × HasNoBatch (begin + length units.old.items) body }
{
    let Some(body) = after_gate(bytes) else {
        return Ok(None);
    };
    let rest = take_batch(begin, units, body)?;
    Ok(Some(bytes.len() - rest.len()))
}
