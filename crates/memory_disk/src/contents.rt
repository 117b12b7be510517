//! The bytes of a file that is held in memory. Nothing here takes memory: room was made before.
ghost use Rattle.std.specs.Prelude.{◌≡◌, ◌≤◌, ◌+◌, ◌-◌, min, take, drop, length, vec_capacity};
ghost use Rattle.log_disk.specs.Disk.{put};

/// Puts bytes at an offset, or at the end where that comes before it.
pub(crate) fn place(file: &mut Vec<u8>, at: usize, bytes: &[u8])
    requires { length file.old.items + length bytes.now ≤ vec_capacity file.old }
    ensures put { file.new.items ≡ put at bytes.now file.old.items }
    ensures length { length file.new.items ≤ length file.old.items + length bytes.now }
    ensures capacity { vec_capacity file.old ≤ vec_capacity file.new }
{
    if at.saturating_add(bytes.len()) <= file.len() {
        file[at..at + bytes.len()].copy_from_slice(bytes);
    } else {
        file.truncate(at);
        file.extend_from_slice(bytes).unwrap();
    }
}

/// Copies from an offset on into the front of the buffer, and tells how many bytes.
pub(crate) fn copy_from(file: &[u8], at: usize, buf: &mut [u8]) -> usize
    ensures count { result ≡ min (length buf.old) (length file.now - at) }
    ensures bytes { take result buf.new ≡ take result (drop at file.now) }
{
    let rest = file.split_at(at.min(file.len())).1;
    let count = rest.len().min(buf.len());
    buf[..count].copy_from_slice(rest.split_at(count).0);
    count
}

/// Makes a file the same as another.
pub(crate) fn copy_over(to: &mut Vec<u8>, from: &Vec<u8>)
    requires { length from.now.items ≤ vec_capacity to.old }
    ensures same { to.new.items ≡ from.now.items }
    ensures capacity { vec_capacity to.old ≤ vec_capacity to.new }
{
    to.clear();
    to.extend_from_slice(from.as_slice()).unwrap();
}
