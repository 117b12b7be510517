//! The first gate of a file.

use memory_disk::MemoryDisk;
use segment_file::has_open_gate;
use std::alloc::AllocGlobal;
use std::process::Abort;
use std::test::Fail;

/// Whether a disk of these bytes has an open gate.
fn is_open<R: AllocGlobal + Abort>(rt: &R, bytes: &[u8], want: bool) -> Result<(), Fail> {
    let mut disk = MemoryDisk::make(rt.alloc(), bytes, 0, &[])?;
    assert_eq!(rt; has_open_gate(&mut disk), Ok(want), "{bytes:?}");
    Ok(())
}

const GATES: &[(&[u8], bool)] = &[(b"", false), (b"O", false), (b"\0O", false), (b"O\0", true)];

#[test]
fn a_lone_byte_is_no_open_gate(rt: HostRuntime) -> Result<(), Fail> {
    for (bytes, want) in GATES {
        is_open(&rt, bytes, *want)?;
    }
    Ok(())
}
