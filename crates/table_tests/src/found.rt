//! What a table, its workers and its flusher's seat answered, beside what they were to answer.
use lsn_space::Lsn;
use ring_buffer::Refused;
use std::process::Abort;

/// The insert of the note of this number answered so.
pub(crate) fn has_answered(
    rt: &impl Abort,
    number: u32,
    answer: Result<Lsn, Refused>,
    wanted: Result<Lsn, Refused>,
) {
    assert_eq!(rt; answer, wanted, "note {number}");
}

/// This word of the table, or end of its log, is at this LSN.
pub(crate) fn is_at(rt: &impl Abort, what: &str, lsn: Lsn, wanted: u32) {
    assert_eq!(rt; lsn.units(), wanted, "{what}");
}

/// This word of the table has this number.
pub(crate) fn is_number(rt: &impl Abort, what: &str, number: u64, wanted: u64) {
    assert_eq!(rt; number, wanted, "{what}");
}

/// So many are there.
pub(crate) fn is_count(rt: &impl Abort, what: &str, count: u32, wanted: u32) {
    assert_eq!(rt; count, wanted, "{what}");
}

/// This is so, or isn't.
pub(crate) fn is_so(rt: &impl Abort, what: &str, found: bool, wanted: bool) {
    assert_eq!(rt; found, wanted, "{what}");
}

/// These units were sent, and end here.
pub(crate) fn has_sent(rt: &impl Abort, units: &[u64], to: Lsn, wanted: &[u64], end: u32) {
    assert_eq!(rt; units, wanted);
    is_at(rt, "sent", to, end);
}
