//! Where the words lie in the table. Ring and release marks are packed; the other words stand two cache
//! lines from one another, or more, but for an account's two. `proofs/WordPlaces.antt` shows that no two words share a place.

ghost use Rattle.std.specs.Prelude.{◌≡◌, ◌≤◌, ◌+◌, ◌*◌, ◌%◌};
ghost use Rattle.lsn_space.specs.declared.lsn.TheConstants.{LEAST_RING, GREATEST_RING, MOST_SLOTS};
ghost use Rattle.lsn_space.specs.declared.opening.TheConstants.{MOST_ACCOUNTS};
ghost use Rattle.table_layout.specs.declared.layout.TheConstants.{STRIDE, TAIL, EXPOSED, DURABLE, STOP, CREW, RING};

use lsn_space::{Lsn, place};

/// Words from one word to the next where they aren't packed, two cache lines.
pub const STRIDE: usize = 16;

/// The end of the last reservation. `split_seat` and `join_seat` of `atomic_table` load word 0.
pub const TAIL: usize = 0;
/// Everything below is filled.
pub const EXPOSED: usize = STRIDE;
/// Everything below is on the disk.
pub const DURABLE: usize = 2 * STRIDE;
/// Why the log stopped, 0 while it runs.
pub const STOP: usize = 3 * STRIDE;
/// The number of active workers.
pub const CREW: usize = 4 * STRIDE;
/// The first word of the ring, which is packed. Behind it stand the release marks, packed too and as
/// many as it has words, and behind these, 16 words apart, the slots' states, the slots' bases and the
/// accounts' words, each with the account's balance right behind it.
pub const RING: usize = 5 * STRIDE;

/// A law: the words that aren't packed stand 16 apart, in this order, the ring behind them.
pub fn fixed_layout()
    ensures stride { STRIDE ≡ 16 }
    ensures tail { TAIL ≡ 0 }
    ensures exposed { EXPOSED ≡ 16 }
    ensures durable { DURABLE ≡ 32 }
    ensures stop { STOP ≡ 48 }
    ensures crew { CREW ≡ 64 }
    ensures ring { RING ≡ 80 }
{}

/// Where the release mark of the range that begins at an LSN lies.
pub fn mark_place(ring: u32, at: Lsn) -> usize
    requires { (LEAST_RING ≤ ring) × (ring ≤ GREATEST_RING) }
    ensures { result ≡ RING + ring + at % ring }
{
    RING + ring as usize + place(at, ring)
}

/// Where the word of a slot's state lies.
pub fn slot_place(ring: u32, slot: u32) -> usize
    requires { (ring ≤ GREATEST_RING) × (slot ≤ MOST_SLOTS) }
    ensures { result ≡ RING + ring + ring + STRIDE * slot }
{
    RING + ring as usize + ring as usize + STRIDE * slot as usize
}

/// Where the word of a slot's base lies, in a table with so many slots.
pub fn base_place(ring: u32, slots: u32, slot: u32) -> usize
    requires { (ring ≤ GREATEST_RING) × (slots ≤ MOST_SLOTS) × (slot ≤ MOST_SLOTS) }
    ensures { result ≡ RING + ring + ring + STRIDE * (slots + slot) }
{
    RING + ring as usize + ring as usize + STRIDE * (slots as usize + slot as usize)
}

/// Where the word of an account lies, in a table with so many slots.
pub fn account_place(ring: u32, slots: u32, account: u32) -> usize
    requires { (ring ≤ GREATEST_RING) × (slots ≤ MOST_SLOTS) × (account ≤ MOST_ACCOUNTS) }
    ensures { result ≡ RING + ring + ring + STRIDE * (slots + slots + account) }
{
    let before = slots as usize + slots as usize;
    RING + ring as usize + ring as usize + STRIDE * (before + account as usize)
}

/// Where the balance of an account lies: right behind its word, in the same two cache lines.
pub fn balance_place(ring: u32, slots: u32, account: u32) -> usize
    requires { (ring ≤ GREATEST_RING) × (slots ≤ MOST_SLOTS) × (account ≤ MOST_ACCOUNTS) }
    ensures { result ≡ RING + ring + ring + STRIDE * (slots + slots + account) + 1 }
{
    account_place(ring, slots, account) + 1
}
