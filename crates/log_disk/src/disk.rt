//! The trait of a disk. Each call but `read_at`, which has clauses of its own, says by `MakesCall` what it does.
ghost use Rattle.std.specs.Prelude.{◌≡◌, ◌≤◌, ◌-◌, ◌↔◌, List, Option, ℕ, length, min, take, drop, IfOk};
ghost use Rattle.log_disk.specs.Attachment.{Attached, Attaches};
ghost use Rattle.log_disk.specs.Faults.{HasCause, raised};
ghost use Rattle.log_disk.specs.Disk.{Elapses, Keeps};
ghost use Rattle.log_disk.specs.OneCall.{MakesCall, Syncs, TellsLength, WritesAt};

use crate::Failed;
use lsn_space::Word;

/// A file on a disk, which a crash may leave otherwise than it is read. A range that was written may
/// hold any bytes until a sync, and a file that grew may have any length from its old to its new; the other
/// bytes stay. What is said of content holds where the disk is honest. No clause says that of a real
/// disk, of which nothing is known.
pub trait LogDisk {
    /// The disk tells its bytes, and they are as the clauses say.
    ghost honest: { Self → Type 0 };

    /// The bytes that a read gives.
    ghost reads: { Self → List ℕ };

    /// What a crash at this moment may leave.
    ghost images: { Self → List ℕ → Type 0 };

    /// The moment, a number that never falls.
    ghost moment: { Self → ℕ };

    /// What a crash at that moment or a later one might have left, within a call or between two.
    ghost images_since: { Self → ℕ → List ℕ → Type 0 };

    /// The file of the last `attach` that succeeded.
    ghost attached: { Self → Option Attached };

    /// How many writes and syncs have succeeded.
    ghost written_count: { Self → ℕ };

    /// How many calls were made, those that failed too.
    ghost calls: { Self → ℕ };

    /// How often a call has failed.
    ghost faults: { Self → ℕ };

    /// Opens the file of that name. A missing one is made where `make` says so, and is else a fault.
    fn attach(&mut self, name: &Word, make: bool) -> Result<(), Failed>
        ensures { MakesCall (Keeps honest reads images written_count self.old self.new)
            (honest self.old → Attaches (record { name = name.now; may_make = make }) (attached self.old) (attached self.new) result)
            honest moment images images_since calls faults self.old self.new result };

    /// The length of the file in bytes.
    fn len(&mut self) -> Result<u64, Failed>
        ensures { MakesCall (TellsLength honest reads images written_count self.old self.new result)
            (attached self.new ≡ attached self.old) honest moment images images_since calls faults self.old self.new result };

    /// Reads from that offset on into the front of the buffer, and tells how many bytes. 0 from the
    /// end of the file on.
    fn read_at(&mut self, at: u64, buf: &mut [u8]) -> Result<usize, Failed>
        ensures fits { IfOk result (λ n. n ≤ length buf.new) }
        ensures count { honest self.old → IfOk result (λ n. n ≡ min (length buf.old) (length (reads self.old) - at)) }
        ensures bytes { honest self.old → IfOk result (λ n. take n buf.new ≡ take n (drop at (reads self.old))) }
        ensures keeps { Keeps honest reads images written_count self.old self.new }
        ensures honest { honest self.old ↔ honest self.new }
        ensures attached { attached self.new ≡ attached self.old }
        ensures time { Elapses moment images images_since self.old self.new }
        ensures calls { honest self.old → calls self.new ≡ raised (calls self.old) }
        ensures cause { HasCause (faults self.old) (faults self.new) result };

    /// Writes over what stands at that offset, and past the end. A write that fails may have left any
    /// bytes in its range, for reads too.
    fn write_at(&mut self, at: u64, bytes: &[u8]) -> Result<(), Failed>
        requires { honest self.old → at ≤ length (reads self.old) }
        ensures { MakesCall (WritesAt honest reads images written_count self.old self.new result at bytes.now)
            (attached self.new ≡ attached self.old) honest moment images images_since calls faults self.old self.new result };

    /// After it a crash leaves what a read gives. A sync that fails adds no image.
    fn sync(&mut self) -> Result<(), Failed>
        ensures { MakesCall (Syncs honest reads images written_count self.old self.new result)
            (attached self.new ≡ attached self.old) honest moment images images_since calls faults self.old self.new result };

    /// What is read is one of the images.
    ghost read_is_image: { (disk : Self) → honest disk → images disk (reads disk) };

    /// The images of this moment are among those since an earlier one.
    ghost counts_now: { (disk : Self) (t : ℕ) (c : List ℕ) → t ≤ moment disk → images disk c → images_since disk t c };

    /// Since this moment there are no others than those of now.
    ghost only_now: { (disk : Self) (c : List ℕ) → images_since disk (moment disk) c → images disk c };
}
