//! The reading of a head: the opening that bytes begin with.
ghost use Rattle.std.specs.Prelude.{◌≡◌, ◌+◌, ◌∷◌, ◌++◌, ◌<◌, ◌≤◌, ℕ, List, length, IfOk, IfSome, IfNone, IsErrOf};
ghost use Rattle.std.specs.List.{flat_map, AllByRecursion};
ghost use Rattle.std.specs.Int.{w32, w64, to_be_bytes};
ghost use Rattle.lsn_space.specs.Opening.{Opening, IsRow, IsSnapshot};
ghost use Rattle.segment_head.specs.declared.head.TheConstants.{FIRST_GATE};
ghost use Rattle.segment_head.specs.Head.{head_magic, row_bytes, snapshot_bytes};

use crate::head::FIRST_GATE;
use lsn_space::{Balances, Lsn, MOST_ACCOUNTS, MOST_BALANCE, Opening, unit_of};
use std::alloc::Global;

/// Why no opening was taken.
#[derive(Clone, Copy, Debug, PartialEq, Eq)]
pub enum SnapshotFault {
    Bad,
    NoMemory,
}

/// What follows the open gate and the magic bytes that a file with a head begins with.
pub fn after_head_magic(bytes: &[u8]) -> Option<&[u8]>
    ensures some { IfSome result (λ rest. bytes.now ≡ FIRST_GATE ∷ head_magic ++ rest.now) }
    ensures none { IfNone result ((rest : List ℕ) → bytes.now ≡ FIRST_GATE ∷ head_magic ++ rest → ⊥) }
{
    match bytes {
        [
            FIRST_GATE,
            b'A',
            b'E',
            b'T',
            b'H',
            b'E',
            b'R',
            b'2',
            rest @ ..,
        ] => Some(rest),
        _ => None,
    }
}

/// The opening that the bytes behind a head's magic bytes begin with, and the bytes behind it. It is bad where it is cut,
/// or where a number is out of its range.
pub fn take_snapshot(alloc: Global, bytes: &[u8]) -> Result<(Opening, &[u8]), SnapshotFault>
    ensures held { IfOk result (λ taken. IsSnapshot taken.0) }
    ensures taken { IfOk result (λ taken. bytes.now ≡ snapshot_bytes taken.0 ++ taken.1.now) }
    ensures bad { IsErrOf result SnapshotFault.Bad
        → (opening : Opening) (rest : List ℕ) → IsSnapshot opening → bytes.now ≡ snapshot_bytes opening ++ rest → ⊥ }
{
    let Some((lsn, txn, count, rest)) = first_numbers(bytes) else {
        return Err(SnapshotFault::Bad);
    };
    if count == 0 || count > MOST_ACCOUNTS {
        return Err(SnapshotFault::Bad);
    }
    let Ok(mut accounts) = Balances::make(alloc, count) else {
        return Err(SnapshotFault::NoMemory);
    };
    let Some(rest) = take_rows(&mut accounts, count, lsn, rest) else {
        return Err(SnapshotFault::Bad);
    };
    let lsn = Lsn::new(lsn);
    Ok((Opening { lsn, txn, accounts }, rest))
}

/// Takes the rows of so many accounts, and answers the bytes behind them. Each balance is in its range, and each mark is at
/// most this LSN.
fn take_rows<'a>(accounts: &mut Balances, count: u32, lsn: u32, bytes: &'a [u8]) -> Option<&'a [u8]>
    requires room { length accounts.old.rows + count ≤ accounts.old.room }
    ensures some { IfSome result (λ rest. (rows : List (ℕ × ℕ)) × (length rows ≡ count) × AllByRecursion (IsRow lsn) rows
        × (bytes.now ≡ flat_map row_bytes rows ++ rest.now) × (accounts.new.rows ≡ accounts.old.rows ++ rows)) }
    ensures none { IfNone result ((rows : List (ℕ × ℕ)) (rest : List ℕ) → length rows ≡ count → AllByRecursion (IsRow lsn) rows
        → bytes.now ≡ flat_map row_bytes rows ++ rest → ⊥) }
{
    let mut rest = bytes;
    'accounts: for _ in 0..count {
        let Some((balance, mark, after)) = first_row(rest) else {
            return None;
        };
        if balance > MOST_BALANCE || mark > lsn {
            return None;
        }
        accounts.push(balance, mark);
        rest = after;
    }
    Some(rest)
}

/// The three numbers that the bytes begin with, and the bytes behind them.
fn first_numbers(bytes: &[u8]) -> Option<(u32, u32, u32, &[u8])>
    ensures some { IfSome result (λ n. bytes.now ≡ to_be_bytes w32 n.0 ++ to_be_bytes w32 n.1 ++ to_be_bytes w32 n.2 ++ n.3.now) }
    ensures none { IfNone result (length bytes.now < 12) }
{
    let (first, rest) = first_number(bytes)?;
    let (second, rest) = first_number(rest)?;
    let (third, rest) = first_number(rest)?;
    Some((first, second, third, rest))
}

/// The balance and the mark that the bytes begin with, and the bytes behind them.
fn first_row(bytes: &[u8]) -> Option<(u64, u32, &[u8])>
    ensures some { IfSome result (λ row. bytes.now ≡ to_be_bytes w64 row.0 ++ to_be_bytes w32 row.1 ++ row.2.now) }
    ensures none { IfNone result (length bytes.now < 12) }
{
    let (balance, rest) = first_unit(bytes)?;
    let (mark, rest) = first_number(rest)?;
    Some((balance, mark, rest))
}

/// The number that the first four bytes are, and the bytes behind them.
fn first_number(bytes: &[u8]) -> Option<(u32, &[u8])>
    ensures some { IfSome result (λ n. bytes.now ≡ to_be_bytes w32 n.0 ++ n.1.now) }
    ensures none { IfNone result (length bytes.now < 4) }
{
    match bytes {
        [a, b, c, d, rest @ ..] => Some((u32::from_be_bytes([*a, *b, *c, *d]), rest)),
        _ => None,
    }
}

/// The number that the first eight bytes are, and the bytes behind them.
pub fn first_unit(bytes: &[u8]) -> Option<(u64, &[u8])>
    ensures some { IfSome result (λ n. bytes.now ≡ to_be_bytes w64 n.0 ++ n.1.now) }
    ensures none { IfNone result (length bytes.now < 8) }
{
    match bytes {
        [a, b, c, d, e, f, g, h, rest @ ..] => {
            Some((unit_of([*a, *b, *c, *d, *e, *f, *g, *h]), rest))
        }
        _ => None,
    }
}

/// A law: bytes begin with one opening at most.
pub fn one_head()
    ensures { (a b : Opening) (x y : List ℕ) → IsSnapshot a → IsSnapshot b
        → snapshot_bytes a ++ x ≡ snapshot_bytes b ++ y → (a ≡ b) × (x ≡ y) }
{}
