//! What `recover` answers of an image, beside what is wanted.

use crate::pieces::is_same_in_pieces;
use crate::plainly::is_same;
use log_recovery::{RecoverFault, Why, listed, put_dump, recover};
use lsn_space::Lsn;
use memory_disk::MemorySink;
use std::alloc::AllocGlobal;
use std::process::Abort;
use std::test::Fail;

/// A fault, in numbers that a constant can hold.
pub(crate) enum Fault {
    NotALog,
    BadSnapshot,
    BadBatch(u64),
    BadRec(u32),
    Unlawful(u32, Why),
}

impl Fault {
    pub fn wanted(&self) -> RecoverFault {
        match *self {
            Fault::NotALog => RecoverFault::NotALog,
            Fault::BadSnapshot => RecoverFault::BadSnapshot,
            Fault::BadBatch(offset) => RecoverFault::BadBatch { offset },
            Fault::BadRec(lsn) => RecoverFault::BadRec { lsn: Lsn::new(lsn) },
            Fault::Unlawful(lsn, why) => RecoverFault::Unlawful {
                lsn: Lsn::new(lsn),
                why,
            },
        }
    }
}

/// The same is recovered from a source that gives the image in pieces.
pub(crate) fn is_whole_in_pieces<R: AllocGlobal + Abort>(rt: &R, name: &str, bytes: &[u8]) {
    assert!(rt; is_same_in_pieces(rt.alloc(), bytes), "{name} {bytes:?}");
}

/// This is the fault that was found in the image.
pub(crate) fn is_fault(
    rt: &impl Abort,
    name: &str,
    bytes: &[u8],
    found: Option<RecoverFault>,
    fault: &Fault,
) {
    assert_eq!(rt; found, Some(fault.wanted()), "{name} {bytes:?}");
}

/// The plain program answers the same of the image.
pub(crate) fn has_same_answers<R: AllocGlobal + Abort>(rt: &R, name: &str, bytes: &[u8]) {
    assert!(rt; is_same(rt.alloc(), bytes), "{name} {bytes:?}");
}

/// The image is no list, for this fault, and so has no dump; one that is unlawful is a list.
fn is_listed<R: AllocGlobal + Abort>(rt: &R, name: &str, bytes: &[u8], fault: &Fault) {
    let found = listed(rt.alloc(), bytes).err();
    let wanted = match fault {
        Fault::Unlawful(..) => None,
        _ => Some(fault.wanted()),
    };
    assert_eq!(rt; found, wanted, "{name} {bytes:?}");
}

/// The image is refused so.
pub(crate) fn is_refused<R: AllocGlobal + Abort>(rt: &R, name: &str, bytes: &[u8], fault: &Fault) {
    is_fault(rt, name, bytes, recover(rt.alloc(), bytes).err(), fault);
    is_listed(rt, name, bytes, fault);
    is_whole_in_pieces(rt, name, bytes);
    has_same_answers(rt, name, bytes);
}

/// The list of the image ends here.
fn is_list_to<R: AllocGlobal + Abort>(rt: &R, name: &str, bytes: &[u8], end: u32) {
    let found = match listed(rt.alloc(), bytes) {
        Ok(list) => Some(list.tail.next.units()),
        Err(_) => None,
    };
    assert_eq!(rt; found, Some(end), "{name} {bytes:?}");
}

/// These rows, each an account's balance and last Commit, were recovered.
fn are_rows(rt: &impl Abort, name: &str, found: &[(u64, u32)], rows: &[(u64, u32)]) {
    assert_eq!(rt; found, rows, "{name}");
}

/// The list ends here, and this is the next transaction number.
fn is_end(rt: &impl Abort, name: &str, found: (u32, u64), end: (u32, u64)) {
    assert_eq!(rt; found, end, "{name}");
}

/// What is recovered of the image ends here, with this next transaction number and these rows of accounts.
pub(crate) fn is_recovered<R: AllocGlobal + Abort>(
    rt: &R,
    name: &str,
    bytes: &[u8],
    end: (u32, u64),
    rows: &[(u64, u32)],
) -> Result<(), Fail> {
    let Ok(recovered) = recover(rt.alloc(), bytes) else {
        return Err(Fail::new("not recovered"));
    };
    let mut found = Vec::new(rt.alloc());
    for account in 0..recovered.accounts.count() {
        found.push(recovered.accounts.at(account))?;
    }
    is_end(rt, name, (recovered.lsn.units(), recovered.next_txn), end);
    is_list_to(rt, name, bytes, end.0);
    is_whole_in_pieces(rt, name, bytes);
    are_rows(rt, name, found.as_slice(), rows);
    Ok(())
}

/// The dump of the image is this text.
pub(crate) fn is_dumped<R: AllocGlobal + Abort>(
    rt: &R,
    name: &str,
    bytes: &[u8],
    text: &[u8],
) -> Result<(), Fail> {
    let Ok(list) = listed(rt.alloc(), bytes) else {
        return Err(Fail::new("no list"));
    };
    let Ok(mut out) = MemorySink::make(rt.alloc(), 300, &[]) else {
        return Err(Fail::new("no memory"));
    };
    let Ok(()) = put_dump(&list, &mut out) else {
        return Err(Fail::new("not dumped"));
    };
    assert_eq!(rt; out.bytes(), text, "{name}");
    Ok(())
}
