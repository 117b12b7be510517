//! What bytes are written to, and the writing of a whole text.
ghost use Rattle.std.specs.Prelude.{◌<◌, ◌≤◌, ℕ, List, Option, length, IfOk};
ghost use Rattle.std.specs.Io.KnownBytes.{WriteAppends};
ghost use Rattle.log_disk.specs.Faults.{HasCause};
ghost use Rattle.log_disk.specs.Streams.{AppendsAll};

use crate::Failed;

/// What bytes are written to.
pub trait Sink {
    /// The bytes held, where the sink tells them.
    ghost held_bytes: { Self → Option (List ℕ) };

    /// How often a call has failed.
    ghost faults: { Self → ℕ };

    /// Appends a prefix of the piece, which isn't empty, and tells how many bytes. A write that fails
    /// appends nothing.
    fn write(&mut self, piece: &[u8]) -> Result<usize, Failed>
        requires { 0 < length piece.now }
        ensures some { IfOk result (λ count. 0 < count) }
        ensures fits { IfOk result (λ count. count ≤ length piece.now) }
        ensures bytes { WriteAppends (held_bytes self.old) (held_bytes self.new) result piece.now }
        ensures cause { HasCause (faults self.old) (faults self.new) result };
}

/// A write of a whole text failed.
#[derive(Clone, Copy, Debug, PartialEq, Eq)]
pub struct WriteFault;

/// Appends all the bytes, or a part of them at a fault: what the writes before it took. Empty bytes make no call.
pub fn put_all<K: Sink>(sink: &mut K, bytes: &[u8]) -> Result<(), WriteFault>
    ensures { AppendsAll (K.held_bytes sink.old) (K.held_bytes sink.new) bytes.now (K.faults sink.old) (K.faults sink.new) result }
{
    let mut rest = bytes;
    'writes: while !rest.is_empty() {
        match sink.write(rest) {
            Ok(count) => rest = rest.split_at(count).1,
            Err(_) => return Err(WriteFault),
        }
    }
    Ok(())
}
