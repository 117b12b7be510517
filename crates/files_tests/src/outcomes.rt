//! What came of a call, beside what is wanted.

use log_disk::Failed;
use std::process::Abort;

/// The call ended so.
pub(crate) fn has_ended(
    rt: &impl Abort,
    call: &str,
    found: Result<(), Failed>,
    want: Result<(), Failed>,
) {
    assert_eq!(rt; found, want, "{call}");
}

/// This is the number.
pub(crate) fn is_number(rt: &impl Abort, what: &str, found: u64, want: u64) {
    assert_eq!(rt; found, want, "{what}");
}

/// The call gave these bytes, or failed.
pub(crate) fn has_given(rt: &impl Abort, call: u64, found: Option<&[u8]>, want: Option<&[u8]>) {
    assert_eq!(rt; found, want, "{call}");
}
