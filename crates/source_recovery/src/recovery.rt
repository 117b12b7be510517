//! The recovery of a log that a source gives, batch by batch.

ghost use Rattle.std.specs.Prelude.{◌≡◌, IfOk, IfErr, IsErrOf};
ghost use Rattle.log_disk.specs.Faults.{CountsWhere};
ghost use Rattle.source_recovery.specs.Recovery.{IsSourceFaultOf, RecoversSource, TakesSource, TellsReading};
ghost use Rattle.source_recovery.specs.declared.recovery.SourceFault.TheVariants as fault;
ghost use Rattle.log_recovery.specs.declared.recovery.RecoverFault.TheVariants as log_fault;

use crate::asked::TakesAsked;
use crate::batches::{LogReader, ReadingFault};
use crate::records::UnitsTaker;
use lock_core::Judge;
use log_disk::Source;
use log_recovery::{RecoverFault, Recovered, recovered_of, scan_fault, units_fault};
use lsn_space::NoMemory;
use segment_file::Tail;
use std::alloc::Global;

/// Why nothing is recovered from a source.
#[derive(Clone, Copy, Debug, PartialEq, Eq)]
pub enum SourceFault {
    /// A read failed.
    Failed,

    /// The log has this fault, or memory is wanting.
    Log(RecoverFault),
}

impl From<ReadingFault> for SourceFault {
    ghost from_gives = { TellsReading };

    fn from(fault: ReadingFault) -> Self {
        match fault {
            ReadingFault::Failed => SourceFault::Failed,
            ReadingFault::NoMemory => SourceFault::Log(RecoverFault::NoMemory),
            ReadingFault::Bytes(fault) => SourceFault::Log(scan_fault(fault)),
        }
    }
}

impl From<NoMemory> for SourceFault {
    ghost from_gives = { λ _ told. told ≡ fault.Log log_fault.NoMemory };

    fn from(_: NoMemory) -> Self {
        SourceFault::Log(RecoverFault::NoMemory)
    }
}

/// What is asked for this and has taken the lawful list of the log that the source gives, and where its file goes on.
pub fn take_pieces<T: TakesAsked, S: Source>(
    alloc: Global,
    asked: u32,
    source: &mut S,
) -> Result<(T, Tail), SourceFault>
    ensures found { IfOk result (λ both. TakesSource (T.has_taken asked) (S.left source.old) (S.left source.new) both.0 both.1) }
    ensures fault { IfErr result (IsSourceFaultOf (S.left source.old) (S.left source.new)) }
    ensures failed { CountsWhere (IsErrOf result SourceFault.Failed) (S.faults source.old) (S.faults source.new) }
{
    let (mut reader, opening, mut units) = LogReader::begin(alloc, source)?;
    let mut taker = UnitsTaker::<T>::new(alloc, &opening, asked)?;
    'batches: loop {
        taker.take(&mut units)?;
        if !reader.next_behind_few(source, &mut units)? {
            break;
        }
    }
    match taker.finish(units.as_slice()) {
        Ok(taken) => Ok((taken, reader.tail())),
        Err(fault) => Err(SourceFault::Log(units_fault(fault))),
    }
}

/// The accounts of the lawful list of the log that the source gives: what `recover` answers of all its bytes.
pub fn recover_source<S: Source>(alloc: Global, source: &mut S) -> Result<Recovered, SourceFault>
    ensures { RecoversSource S.Source source.old source.new result }
{
    // A judge heeds nothing that it is asked.
    let (judge, tail) = take_pieces::<Judge, S>(alloc, 0, source)?;
    Ok(recovered_of(judge, tail))
}
