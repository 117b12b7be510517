//! What bytes are read from.
ghost use Rattle.std.specs.Prelude.{◌≡◌, ◌<◌, ℕ, List, Option, length, IsErr};
ghost use Rattle.std.specs.Io.{ReadsAtMost};
ghost use Rattle.std.specs.Io.KnownBytes.{ReadConsumes};
ghost use Rattle.log_disk.specs.Faults.{HasCause};
ghost use Rattle.log_disk.specs.Streams.{SpendsAllowance};

use crate::Failed;

/// How many reads of a source may give bytes, from its making on.
pub const READ_ALLOWANCE: u64 = 1 << 32;

/// Why a source was not read on.
#[derive(Clone, Copy, Debug, PartialEq, Eq)]
pub enum ReadFault {
    /// A read failed.
    Failed,

    NoMemory,
}

/// What bytes are read from.
pub trait Source {
    /// The bytes left, where the source tells them.
    ghost left: { Self → Option (List ℕ) };

    /// How many reads may still give bytes.
    ghost read_allowance: { Self → ℕ };

    /// How often a call has failed.
    ghost faults: { Self → ℕ };

    /// Reads into the front of the buffer, which isn't empty, and tells how many bytes. 0 is the end
    /// of the input. A read that fails takes nothing.
    fn read(&mut self, buf: &mut [u8]) -> Result<usize, Failed>
        requires { 0 < length buf.old }
        ensures fits { ReadsAtMost result buf.new }
        ensures bytes { ReadConsumes (left self.old) (left self.new) result buf.new }
        ensures allowance { SpendsAllowance (read_allowance self.old) (read_allowance self.new) result }
        ensures spent { read_allowance self.old ≡ 0 → IsErr result }
        ensures cause { HasCause (faults self.old) (faults self.new) result };
}
