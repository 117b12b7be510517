//! A log that is recovered from a source, piece by piece, beside the recovery of all its bytes: they answer the same.

ghost use Rattle.std.specs.Prelude.{◌<◌};

use crate::plainly::are_same;
use log_recovery::{RecoverFault, Recovered, recover};
use memory_disk::MemorySource;
use source_recovery::{SourceFault, recover_source};
use std::alloc::Global;

/// What is recovered of these bytes where a read gives at most so many.
fn recover_in_pieces(alloc: Global, bytes: &[u8], most: usize) -> Result<Recovered, SourceFault>
    requires { 0 < most }
{
    let Ok(mut source) = MemorySource::make(alloc, bytes, most, &[]) else {
        return Err(SourceFault::Log(RecoverFault::NoMemory));
    };
    recover_source(alloc, &mut source)
}

/// Whether both are the same accounts, and the same end of a list.
fn are_same_lists(one: &Recovered, other: &Recovered) -> bool {
    one.lsn == other.lsn
        && one.next_txn == other.next_txn
        && one.tail == other.tail
        && are_same(&one.accounts, &other.accounts)
}

/// Whether both answer the same of these bytes, which come in some sixteen pieces.
pub(crate) fn is_same_in_pieces(alloc: Global, bytes: &[u8]) -> bool {
    let pieces = recover_in_pieces(alloc, bytes, 1 + bytes.len() / 16);
    match (recover(alloc, bytes), pieces) {
        (Ok(recovered), Ok(other)) => are_same_lists(&recovered, &other),
        (Err(fault), Err(SourceFault::Log(other))) => fault == other,
        _ => false,
    }
}
