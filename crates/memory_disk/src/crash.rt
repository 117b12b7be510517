//! What a crash leaves of the disk in memory, by a number.
ghost use Rattle.std.specs.Prelude.{◌≡◌, ◌≤◌, ◌<◌, ◌+◌, ◌/◌, ◌%◌, take, length, vec_capacity};
ghost use Rattle.log_disk.specs.Disk.{put, IsTorn};
ghost use Rattle.memory_disk.specs.Calls.{IsLeftByCrash, Replays};
ghost use Rattle.memory_disk.specs.MemoryDisks.{total_len};

use crate::contents::{copy_over, place};
use crate::memory_disk::MemoryDisk;
use crate::step::Step;

/// A number that is used up digit by digit, each with a base of its own.
#[derive(Drop)]
struct Digits {
    left: u64,
}

impl Digits {
    /// The next digit, from 0 to `most`. After the last one each is 0.
    fn up_to(&mut self, most: usize) -> usize
        requires { most < usize.MAX }
        ensures most { result ≤ most }
        ensures digit { result ≡ self.old.left % (most + 1) }
        ensures rest { self.new.left ≡ self.old.left / (most + 1) }
    {
        let base = most as u64 + 1;
        let digit = self.left % base;
        self.left /= base;
        digit as usize
    }
}

impl MemoryDisk {
    /// What a crash leaves: one of the images, as a disk with nothing to lose, and no file attached. It goes
    /// on counting calls, and has the room that was left.
    ///
    /// The digits of `pick` say of each write since the last sync, the oldest first, how many of its
    /// first bytes landed (from none to all), how many of these hold noise, and which byte that is.
    /// So a small pick is the number of bytes that landed of the first write, and later ones did not.
    pub fn crash(self, pick: u64) -> MemoryDisk
        ensures { IsLeftByCrash pick self result }
    {
        let MemoryDisk {
            mut start,
            mut held,
            mut steps,
            mut log,
            room,
            name,
            may_make,
            failing,
            calls,
            written_count,
            faults,
            ..
        } = self;
        copy_over(&mut held, &start);
        let digits = Digits { left: pick };
        replay_steps(&mut start, &mut held, &steps, &log, pick, digits);
        copy_over(&mut held, &start);
        steps.clear();
        log.clear();
        MemoryDisk {
            start,
            held,
            steps,
            log,
            room,
            name,
            may_make,
            is_attached: false,
            failing,
            calls,
            written_count,
            faults,
        }
    }
}

/// Goes through the steps again, with all digits of the pick, and makes of the file at first what a crash leaves. What is read goes into
/// `file`, which is the same at first.
fn replay_steps(
    image: &mut Vec<u8>,
    file: &mut Vec<u8>,
    steps: &[Step],
    log: &[u8],
    pick: u64,
    all: Digits,
)
    requires whole { total_len steps.now ≡ length log.now }
    requires image_room { length image.old.items + length log.now ≤ vec_capacity image.old }
    requires file_room { length image.old.items + length log.now ≤ vec_capacity file.old }
    requires same { file.old.items ≡ image.old.items }
    requires digits { all.left ≡ pick }
    ensures { Replays pick steps.now log.now image.old.items image.new.items
        (vec_capacity image.old) (vec_capacity image.new) (vec_capacity file.old) (vec_capacity file.new) }
{
    let mut rest = log;
    let mut digits = all;
    'steps: for step in steps {
        match *step {
            Step::Write { at, len } => {
                let (bytes, after) = rest.split_at(len);
                tear(image, at, bytes, &mut digits);
                place(file, at, bytes);
                rest = after;
            }
            Step::Sync => {
                copy_over(image, file);
                digits = Digits { left: pick };
            }
        }
    }
}

/// Writes as a crash may leave it.
fn tear(image: &mut Vec<u8>, at: usize, bytes: &[u8], digits: &mut Digits)
    requires { length image.old.items + length bytes.now ≤ vec_capacity image.old }
    ensures torn { IsTorn at (length bytes.now) image.old.items image.new.items }
    ensures none { digits.old.left ≡ 0 → image.new.items ≡ image.old.items }
    ensures none_left { digits.old.left ≡ 0 → digits.new.left ≡ 0 }
    ensures landed { at ≤ length image.old.items → digits.old.left ≤ length bytes.now
        → image.new.items ≡ put at (take digits.old.left bytes.now) image.old.items }
    ensures length { length image.new.items ≤ length image.old.items + length bytes.now }
    ensures capacity { vec_capacity image.old ≤ vec_capacity image.new }
{
    // Behind the end of the image nothing can land: an earlier write that made the file grow is lost.
    if at > image.len() {
        return;
    }
    let landed = digits.up_to(bytes.len());
    let noisy = digits.up_to(landed);
    let noise = digits.up_to(255) as u8;
    place(image, at, bytes.split_at(landed).0);
    overwrite(image, at, noisy, noise);
}

/// Puts the same byte at each of so many places.
fn overwrite(image: &mut Vec<u8>, at: usize, count: usize, byte: u8)
    requires { at + count ≤ length image.old.items }
    ensures torn { IsTorn at count image.old.items image.new.items }
    ensures length { length image.new.items ≡ length image.old.items }
    ensures capacity { vec_capacity image.old ≤ vec_capacity image.new }
{
    'places: for place in at..at + count {
        image[place] = byte;
    }
}
