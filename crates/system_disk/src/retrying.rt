//! Calls of the system that a signal interrupts before they moved a byte. They are made again until they
//! end otherwise, so for a caller each is one call; the standard library does so in its longer ones, as
//! `write_all_at`, and in a sync.
ghost use Rattle.std.specs.Prelude.{IfErr};
ghost use Rattle.std.specs.Io.{ReadsAtMost, WritesAtMost};
ghost use Rattle.std.specs.Io.KnownBytes.{ReadConsumes, WriteAppends};
ghost use Rattle.system_disk.specs.Interruption.{WasNotInterrupted};

use std::fs::File;
use std::io;
use std::io::{Error, ErrorKind, Read, Write};

/// How often a call is made at most. A loop has to end, and no run comes to this end of it.
const MOST_TRIES: u64 = u64::MAX;

/// One read, made again where it was interrupted.
pub(crate) fn read_retrying<R: Read>(reader: &mut R, buf: &mut [u8]) -> io::Result<usize>
    ensures fits { ReadsAtMost result buf.new }
    ensures bytes { ReadConsumes (R.remaining reader.old) (R.remaining reader.new) result buf.new }
    ensures retried { IfErr result WasNotInterrupted }
{
    'tries: for _ in 0..MOST_TRIES {
        match reader.read(buf) {
            Ok(count) => return Ok(count),
            Err(error) if error.kind() == ErrorKind::Interrupted => {}
            Err(error) => return Err(error),
        }
    }
    Err(Error::from(ErrorKind::TimedOut))
}

/// One write, made again where it was interrupted.
pub(crate) fn write_retrying<W: Write>(writer: &mut W, piece: &[u8]) -> io::Result<usize>
    ensures fits { WritesAtMost result piece.now }
    ensures bytes { WriteAppends (W.contents writer.old) (W.contents writer.new) result piece.now }
    ensures retried { IfErr result WasNotInterrupted }
{
    'tries: for _ in 0..MOST_TRIES {
        match writer.write(piece) {
            Ok(count) => return Ok(count),
            Err(error) if error.kind() == ErrorKind::Interrupted => {}
            Err(error) => return Err(error),
        }
    }
    Err(Error::from(ErrorKind::TimedOut))
}

/// The length of a file, asked again where that was interrupted.
pub(crate) fn len_retrying(file: &File) -> io::Result<u64>
    ensures retried { IfErr result WasNotInterrupted }
{
    'tries: for _ in 0..MOST_TRIES {
        match file.metadata() {
            Ok(metadata) => return Ok(metadata.len()),
            Err(error) if error.kind() == ErrorKind::Interrupted => {}
            Err(error) => return Err(error),
        }
    }
    Err(Error::from(ErrorKind::TimedOut))
}
