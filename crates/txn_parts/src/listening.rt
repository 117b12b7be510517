//! A worker that waits for the disk, and was awake for long enough, listens for a bell before its next attempt: it sleeps until the bell is
//! rung where that attempt and the look at stop behind it come to nothing (`pause`). What both miss is behind the key, and ends the sleep.
use crate::desk::Desk;
use crate::relief::Relief;
use crossbeam_utils::sync::Key;

/// The key for an attempt to see durable. None: the worker rests instead.
pub(crate) fn listen<'a, R, Q: Relief, G>(desk: &Desk<'a, R, Q, G>) -> Option<Key<'a>> {
    if desk.wait && desk.relief.is_tired() {
        return Some(desk.table.listen());
    }
    None
}

/// The key for an attempt to take this account. None: the worker rests instead.
#[inline(always)]
pub fn listen_account<'a, R, Q: Relief, G>(
    desk: &Desk<'a, R, Q, G>,
    account: u32,
) -> Option<Key<'a>> {
    if desk.wait && desk.relief.is_tired() {
        return Some(desk.table.listen_account(account));
    }
    None
}
