//! Times in nanoseconds.
use std::time::Instant;

/// How long it is from the one to the other.
pub(crate) fn nanos_from(since: Instant, now: Instant) -> u64 {
    let nanos = now.duration_since(since).as_nanos();
    u64::try_from(nanos).unwrap_or(u64::MAX)
}
