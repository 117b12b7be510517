//! What the members of a group answered, beside what they were to answer.
use crate::found::{is_at, is_count};
use slot_rig::{GroupRange, Left, NotJoined, Refusal};
use std::process::Abort;

/// The worker joined, or didn't for this reason.
pub(crate) fn has_joined(
    rt: &impl Abort,
    answer: Result<(), NotJoined>,
    wanted: Result<(), NotJoined>,
) {
    assert_eq!(rt; answer, wanted);
}

/// The group has this range.
pub(crate) fn is_range(rt: &impl Abort, range: &GroupRange, base: u32, total: u32) {
    is_at(rt, "base", range.base, base);
    is_count(rt, "total", range.total, total);
}

/// The group was refused by this tail and this durable.
pub(crate) fn is_refusal(rt: &impl Abort, refusal: &Refusal, tail: u32, durable: u32) {
    is_at(rt, "tail", refusal.tail, tail);
    is_at(rt, "durable", refusal.durable, durable);
}

/// The member left where so much remained, and the last one where it exposed up to there.
pub(crate) fn has_left(rt: &impl Abort, left: Left, remaining: u32, exposed: Option<u32>) {
    is_count(rt, "remaining", left.remaining, remaining);
    let at = match left.exposed {
        Some(lsn) => Some(lsn.units()),
        None => None,
    };
    assert_eq!(rt; at, exposed, "exposed");
}
