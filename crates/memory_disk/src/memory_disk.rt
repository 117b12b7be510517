//! The disk in memory.
ghost use Rattle.std.specs.Prelude.{◌≡◌, ◌≤◌, ◌<◌, ◌+◌, ◌-◌, ◌/◌, ◌↔◌, ℕ, List, ◌∷◌, min, take, drop, length, if◌then◌else◌};
ghost use Rattle.std.specs.Prelude.{is_ok, IsErr, IfOk, OnOk, Some};
ghost use Rattle.log_disk.specs.Attachment.{Attaches};
ghost use Rattle.log_disk.specs.Disk.{put, IsOnlyImage, Elapses, CountsOne};
ghost use Rattle.log_disk.specs.Faults.{HasCause, raised};
ghost use Rattle.memory_disk.specs.History.Event.{Wrote, Synced};
ghost use Rattle.memory_disk.specs.Calls.{CountsCall, IsFresh, KeepsDisk, Tears};
ghost use Rattle.memory_disk.specs.MemoryDisks.{file_of, ImagesOf, ImagesSinceOf, moment_of, AttachFails, CallFails};

use crate::contents::{copy_from, place};
use crate::step::Step;
use log_disk::{Failed, LogDisk};
use lsn_space::{NoMemory, Word};
use std::alloc::Global;
use std::marker::Model;

/// What the record of a write or of a sync takes of the room, beside the bytes.
pub const RECORD: usize = 16;

/// How many bytes of a name are kept. To attach a file with a longer one is a fault, as on a disk whose names have an end.
pub const LONGEST_NAME: usize = 255;

/// A disk in memory, which keeps what was done to it, so that `crash` can leave one of its images: not each of
/// them, but one for each number.
#[derive(Drop)]
pub struct MemoryDisk {
    pub(crate) start: Vec<u8>,
    pub(crate) held: Vec<u8>,
    pub(crate) steps: Vec<Step>,
    pub(crate) log: Vec<u8>,
    pub(crate) room: usize,
    pub(crate) name: Vec<u8>,
    pub(crate) may_make: bool,
    pub(crate) is_attached: bool,
    pub(crate) failing: Vec<u64>,
    pub(crate) calls: u64,
    pub(crate) written_count: u64,
    pub(crate) faults: u64,
}

impl Model for MemoryDisk {
    ghost use Rattle.std.specs.Prelude.{◌≤◌, ◌+◌, ◌*◌, [], length, vec_capacity, if◌then◌else◌, Some, None};
    ghost use Rattle.memory_disk.specs.MemoryDisks.{DiskState, IsRecord, recorded};
    ghost use Rattle.memory_disk.specs.declared.memory_disk.TheConstants.{LONGEST_NAME, RECORD};

    ghost Value = { DiskState };

    ghost view = { λ d. record {
      start = d.start.items;
      history = recorded d.steps.items d.log.items [];
      room = d.room;
      attached = if d.is_attached then Some (record { name = d.name.items; may_make = d.may_make }) else None;
      failing = d.failing.items;
      calls = d.calls;
      written_count = d.written_count;
      faults = d.faults;
    } };

    ghost invariant = { λ d. IsRecord d.start.items d.held.items d.log.items d.steps.items d.room d.written_count
        × (length d.start.items + length d.log.items + d.room ≤ vec_capacity d.start)
        × (length d.start.items + length d.log.items + d.room ≤ vec_capacity d.held)
        × (length d.log.items + d.room ≤ vec_capacity d.log)
        × (RECORD * length d.steps.items + d.room ≤ RECORD * vec_capacity d.steps)
        × (LONGEST_NAME ≤ vec_capacity d.name) };
}

impl MemoryDisk {
    /// A disk that holds these bytes, all of them stable. Each write that succeeds takes its length and `RECORD` of the
    /// room, each such sync `RECORD`. The calls whose numbers are in `failing` fail, counted from 1.
    pub fn make(
        alloc: Global,
        bytes: &[u8],
        room: usize,
        failing: &[u64],
    ) -> Result<MemoryDisk, NoMemory>
        ensures { IfOk result (IsFresh bytes.now room failing.now) }
    {
        let Some(most) = bytes.len().checked_add(room) else {
            return Err(NoMemory);
        };
        let mut start = Vec::with_capacity(alloc, most).map_err(|_| NoMemory)?;
        start.extend_from_slice(bytes).unwrap();
        let mut held = Vec::with_capacity(alloc, most).map_err(|_| NoMemory)?;
        held.extend_from_slice(bytes).unwrap();
        let steps = Vec::with_capacity(alloc, room / RECORD + 1).map_err(|_| NoMemory)?;
        let log = Vec::with_capacity(alloc, room).map_err(|_| NoMemory)?;
        let name = Vec::with_capacity(alloc, LONGEST_NAME).map_err(|_| NoMemory)?;
        let failing = Vec::from_slice(alloc, failing).map_err(|_| NoMemory)?;
        Ok(MemoryDisk {
            start,
            held,
            steps,
            log,
            room,
            name,
            may_make: false,
            is_attached: false,
            failing,
            calls: 0,
            written_count: 0,
            faults: 0,
        })
    }

    /// What a read gives.
    pub fn bytes(&self) -> &[u8]
        ensures { result.now ≡ file_of self.now }
    {
        self.held.as_slice()
    }

    /// Counts a call that fails.
    fn count_fault(&mut self) -> Failed
        ensures state { self.new ≡ record self.old { calls = raised self.old.calls; faults = raised self.old.faults } }
        ensures later { self.old.faults ≤ self.new.faults }
    {
        self.calls = self.calls.saturating_add(1);
        self.faults = self.faults.saturating_add(1);
        Failed
    }

    /// Counts a call that takes so much of the room, and a fault where it fails.
    fn count_call(&mut self, cost: usize) -> Result<(), Failed>
        ensures fails { IsErr result ↔ CallFails self.old cost }
        ensures cause { HasCause self.old.faults self.new.faults result }
        ensures state { self.new ≡ record self.old {
          calls = raised self.old.calls;
          faults = if is_ok result then self.old.faults else raised self.old.faults;
        } }
    {
        self.calls = self.calls.saturating_add(1);
        if self.room < cost || self.failing.contains(&self.calls) {
            self.faults = self.faults.saturating_add(1);
            return Err(Failed);
        }
        Ok(())
    }

    /// Carries out a write, of a call that succeeds or of one that fails.
    fn keep_write(&mut self, at: usize, bytes: &[u8], succeeds: bool)
        requires { RECORD + length bytes.now ≤ self.old.room }
        ensures { self.new ≡ record self.old {
          history = Wrote at bytes.now ∷ self.old.history;
          room = self.old.room - (RECORD + length bytes.now);
          written_count = self.old.written_count + (if succeeds then 1 else 0);
        } }
    {
        let len = bytes.len();
        place(&mut self.held, at, bytes);
        self.log.extend_from_slice(bytes).unwrap();
        self.steps.push_reserved(Step::Write { at, len });
        self.room -= RECORD + len;
        self.written_count += u64::from(succeeds);
    }

    /// Keeps which file is attached.
    fn keep_name(&mut self, name: &[u8], make: bool)
        requires { length name.now ≤ LONGEST_NAME }
        ensures { self.new ≡ record self.old { attached = Some (record { name = name.now; may_make = make }) } }
    {
        self.name.clear();
        self.name.extend_from_slice(name).unwrap();
        self.may_make = make;
        self.is_attached = true;
    }

    /// Keeps the first half of a write that fails, where there is room for the whole.
    fn keep_half(&mut self, at: usize, bytes: &[u8])
        requires { at ≤ length (file_of self.old) }
        ensures same { self.new ≡ record self.old { history = self.new.history; room = self.new.room } }
        ensures half { RECORD + length bytes.now ≤ self.old.room
            → self.new.history ≡ Wrote at (take ((length bytes.now + 1) / 2) bytes.now) ∷ self.old.history }
        ensures half_room { RECORD + length bytes.now ≤ self.old.room
            → self.new.room ≡ self.old.room - (RECORD + (length bytes.now + 1) / 2) }
        ensures no_room { self.old.room < RECORD + length bytes.now
            → (self.new.history ≡ self.old.history) × (self.new.room ≡ self.old.room) }
        ensures tears { Tears at (length bytes.now) self.old self.new }
        ensures time { Elapses moment_of ImagesOf ImagesSinceOf self.old self.new }
    {
        if RECORD + bytes.len() <= self.room {
            let half = bytes.split_at(bytes.len().div_ceil(2)).0;
            self.keep_write(at, half, false);
        }
    }

    fn keep_sync(&mut self)
        requires { RECORD ≤ self.old.room }
        ensures { self.new ≡ record self.old {
          history = Synced ∷ self.old.history;
          room = self.old.room - RECORD;
          written_count = self.old.written_count + 1;
        } }
    {
        self.steps.push_reserved(Step::Sync);
        self.room -= RECORD;
        self.written_count += 1;
    }
}

impl LogDisk for MemoryDisk {
    ghost use Rattle.std.specs.Prelude.{⊤};
    ghost use Rattle.memory_disk.specs.MemoryDisks.{file_of, ImagesOf, ImagesSinceOf, moment_of, written_count_of};
    ghost use Rattle.memory_disk.specs.Laws.{file-is-image, images-count, images-only};

    ghost honest = { λ _. ⊤ };

    ghost reads = { file_of };

    ghost images = { ImagesOf };

    ghost attached = { λ d. d.attached };

    ghost moment = { moment_of };

    ghost images_since = { ImagesSinceOf };

    ghost written_count = { written_count_of };

    ghost calls = { λ d. d.calls };

    ghost faults = { λ d. d.faults };

    ghost read_is_image = { λ d _. file-is-image d.start d.history };

    ghost counts_now = { λ d. images-count d.start d.history };

    ghost only_now = { λ d. images-only d.start d.history };

    fn attach(&mut self, name: &Word, make: bool) -> Result<(), Failed>
        ensures looks { KeepsDisk self.old self.new }
        ensures attached { Attaches (record { name = name.now; may_make = make }) self.old.attached self.new.attached result }

        // It fails exactly where it was told to, or where the name is too long.
        ensures counts { CountsCall (AttachFails self.old name.now) self.old self.new result }
    {
        let name = name.text().as_bytes();
        if name.len() > LONGEST_NAME {
            return Err(self.count_fault());
        }
        self.count_call(0)?;
        self.keep_name(name, make);
        Ok(())
    }

    fn len(&mut self) -> Result<u64, Failed>
        ensures len { IfOk result (λ n. n ≡ length (file_of self.old)) }
        ensures looks { KeepsDisk self.old self.new }
        ensures attached { self.new.attached ≡ self.old.attached }
        ensures counts { CountsCall (CallFails self.old 0) self.old self.new result }
    {
        self.count_call(0)?;
        Ok(self.held.len() as u64)
    }

    fn read_at(&mut self, at: u64, buf: &mut [u8]) -> Result<usize, Failed>
        ensures fits { IfOk result (λ n. n ≤ length buf.new) }
        ensures count { IfOk result (λ n. n ≡ min (length buf.old) (length (file_of self.old) - at)) }
        ensures bytes { IfOk result (λ n. take n buf.new ≡ take n (drop at (file_of self.old))) }
        ensures looks { KeepsDisk self.old self.new }
        ensures attached { self.new.attached ≡ self.old.attached }
        ensures counts { CountsCall (CallFails self.old 0) self.old self.new result }
    {
        self.count_call(0)?;
        Ok(copy_from(&self.held, at as usize, buf))
    }

    // A write that fails leaves the first half of its bytes, where there is room for all of them.
    fn write_at(&mut self, at: u64, bytes: &[u8]) -> Result<(), Failed>
        requires { at ≤ length (file_of self.old) }
        ensures written { OnOk result (file_of self.new ≡ put at bytes.now (file_of self.old)) }
        ensures tears { Tears at (length bytes.now) self.old self.new }
        ensures count { CountsOne self.old.written_count self.new.written_count result }
        ensures attached { self.new.attached ≡ self.old.attached }
        ensures counts { CountsCall (CallFails self.old (RECORD + length bytes.now)) self.old self.new result }

        // What the disk keeps of the write, and what that takes of the room.
        ensures start { self.new.start ≡ self.old.start }
        ensures kept { OnOk result (self.new.history ≡ Wrote at bytes.now ∷ self.old.history) }
        ensures room { OnOk result (self.new.room ≡ self.old.room - (RECORD + length bytes.now)) }
        ensures half { IsErr result → RECORD + length bytes.now ≤ self.old.room
            → self.new.history ≡ Wrote at (take ((length bytes.now + 1) / 2) bytes.now) ∷ self.old.history }
        ensures half_room { IsErr result → RECORD + length bytes.now ≤ self.old.room
            → self.new.room ≡ self.old.room - (RECORD + (length bytes.now + 1) / 2) }
        ensures no_room { self.old.room < RECORD + length bytes.now
            → (self.new.history ≡ self.old.history) × (self.new.room ≡ self.old.room) }
    {
        match self.count_call(RECORD + bytes.len()) {
            Ok(()) => {
                self.keep_write(at as usize, bytes, true);
                Ok(())
            }
            Err(failed) => {
                self.keep_half(at as usize, bytes);
                Err(failed)
            }
        }
    }

    fn sync(&mut self) -> Result<(), Failed>
        ensures settled { OnOk result (IsOnlyImage (file_of self.old) (ImagesOf self.new)) }
        ensures reads { file_of self.new ≡ file_of self.old }
        ensures images { (c : List ℕ) → ImagesOf self.new c → ImagesOf self.old c }
        ensures count { CountsOne self.old.written_count self.new.written_count result }
        ensures attached { self.new.attached ≡ self.old.attached }
        ensures counts { CountsCall (CallFails self.old RECORD) self.old self.new result }

        // What the disk keeps of the sync, and what that takes of the room.
        ensures start { self.new.start ≡ self.old.start }
        ensures kept { OnOk result (self.new.history ≡ Synced ∷ self.old.history) }
        ensures room { OnOk result (self.new.room ≡ self.old.room - RECORD) }
        ensures failed { IsErr result → (self.new.history ≡ self.old.history) × (self.new.room ≡ self.old.room) }
    {
        match self.count_call(RECORD) {
            Ok(()) => {
                self.keep_sync();
                Ok(())
            }
            Err(failed) => Err(failed),
        }
    }
}
