//! How all of an input is read.

ghost use Rattle.std.specs.Prelude.{IfOk, IfErr, IsErrOf};
ghost use Rattle.log_disk.specs.Faults.{CountsWhere};
ghost use Rattle.log_disk.specs.Streams.{ReadsAll};
ghost use Rattle.cli_shared.specs.Answers.{IsReadingFault};

use crate::report::Detail;
use log_disk::{BLOCK_BYTES, ReadFault, Source};
use std::alloc::Global;

/// All bytes that the source has left.
pub fn read_all<S: Source>(alloc: Global, source: &mut S) -> Result<Vec<u8>, ReadFault>
    ensures all { IfOk result (λ v. ReadsAll (S.left source.old) (S.left source.new) v.items) }
    ensures faults { CountsWhere (IsErrOf result ReadFault.Failed) (S.faults source.old) (S.faults source.new) }
{
    let mut bytes = Vec::new(alloc);
    let mut buf = [0; BLOCK_BYTES];
    'reads: loop {
        match source.read(&mut buf) {
            Ok(0) => return Ok(bytes),
            Ok(count) => {
                if bytes.extend_from_slice(&buf[..count]).is_err() {
                    return Err(ReadFault::NoMemory);
                }
            }
            Err(_) => return Err(ReadFault::Failed),
        }
    }
}

/// All bytes that the source has left, or why the program ends that reads them.
pub fn read_input<S: Source>(alloc: Global, source: &mut S) -> Result<Vec<u8>, Detail>
    ensures all { IfOk result (λ v. ReadsAll (S.left source.old) (S.left source.new) v.items) }
    ensures err { IfErr result IsReadingFault }
    ensures read { CountsWhere (IsErrOf result Detail.Read) (S.faults source.old) (S.faults source.new) }
{
    match read_all(alloc, source) {
        Ok(bytes) => Ok(bytes),
        Err(ReadFault::Failed) => Err(Detail::Read),
        Err(ReadFault::NoMemory) => Err(Detail::NoMemory),
    }
}
