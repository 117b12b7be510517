//! Logs and streams, and a standby that is opened and fed in pieces.

ghost use Rattle.std.specs.Prelude.{List, ℕ, IfSome, OnOk};
ghost use Rattle.log_recovery.specs.Opened.{OpenedList};
ghost use Rattle.standby.specs.AppliedFrames.{Base};
ghost use Rattle.standby.specs.Following.{Follows};
ghost use Rattle.standby.specs.TakenList.{KeepsList};

use lock_core::Judge;
use log_disk::LogDisk;
use log_recovery::judged;
use lsn_space::Lsn;
use segment_file::{Tail, open_image, settle};
use standby::{Fed, Standby, StandbyFault};
use std::alloc::{AllocError, Global};

/// Accounts 0 and 1 with 100 and 0, up to their next gate.
const ACCOUNTS: [u8; 44] = [
    0x4f, b'A', b'E', b'T', b'H', b'E', b'R', b'1', 0, 0, 0, 4, //
    1, 2, 0, 0, 0, 0, 0, 0, 0, 0, 0, 0, 0, 0, 0, 100, //
    1, 2, 0, 1, 0, 0, 0, 0, 0, 0, 0, 0, 0, 0, 0, 0,
];

/// The gate and the count of the batch behind them: a transfer of 30 from account 0 to account 1.
const BEHIND: [u8; 5] = [0x4f, 0, 0, 0, 5];

/// The transfer, shipped from LSN 4 on.
pub const SHIPPED: [u8; 59] = [
    b'A', b'E', b'S', b'H', b'I', b'P', b'1', 0, 0, 0, 4, 0, 0, 0, 5, //
    2, 2, 0, 0, 0, 0, 0, 1, 0xff, 0xff, 0xff, 0xe2, 0, 0, 0, 0, //
    2, 2, 0, 1, 0, 0, 0, 1, 0, 0, 0, 0x1e, 0, 0, 0, 0, //
    3, 1, 0, 1, 0, 0, 0, 1, 0, 0, 0, 0,
];

/// The log of the accounts.
pub fn accounts_log(alloc: Global) -> Result<Vec<u8>, AllocError> {
    let mut bytes = Vec::from_slice(alloc, &ACCOUNTS)?;
    bytes.push(0)?;
    Ok(bytes)
}

/// The log of the accounts and the transfer.
pub fn transfer_log(alloc: Global) -> Result<Vec<u8>, AllocError> {
    let mut bytes = Vec::from_slice(alloc, &ACCOUNTS)?;
    bytes.extend_from_slice(&BEHIND)?;
    bytes.extend_from_slice(&SHIPPED[15..55])?;
    bytes.push(0)?;
    Ok(bytes)
}

/// Opens a log, judges its list, and settles its tail.
fn open<D: LogDisk>(alloc: Global, disk: &mut D) -> Option<(Tail, Judge)>
    ensures { IfSome result (λ both. (list : OpenedList) × KeepsList D.LogDisk list both.1 both.0 disk.new) }
{
    let Ok(bytes) = open_image(alloc, disk) else {
        return None;
    };
    let Ok((judge, tail)) = judged(alloc, bytes.as_slice()) else {
        return None;
    };
    match settle(disk, tail.at, tail.next) {
        Ok(tail) => Some((tail, judge)),
        Err(_) => None,
    }
}

/// Feeds a piece.
fn feed_piece<D: LogDisk>(standby: &mut Standby<'_, D>, piece: &[u8]) -> Result<Fed, StandbyFault>
    requires { (base : Base D) × (fed : List ℕ) × Follows D.LogDisk base fed standby.old }
    ensures { OnOk result ((base : Base D) × (fed : List ℕ) × Follows D.LogDisk base fed standby.new) }
{
    match standby.feed(piece) {
        Ok(fed) => Ok(fed),
        Err(fault) => Err(fault),
    }
}

/// Feeds the bytes in pieces of this length, and then a piece of none.
fn feed_all<D: LogDisk>(
    standby: &mut Standby<'_, D>,
    bytes: &[u8],
    piece: usize,
) -> Result<Fed, StandbyFault>
    requires { (base : Base D) × (fed : List ℕ) × Follows D.LogDisk base fed standby.old }
    ensures { OnOk result ((base : Base D) × (fed : List ℕ) × Follows D.LogDisk base fed standby.new) }
{
    let mut rest = bytes;
    'pieces: for _ in 0..bytes.len() {
        let (front, behind) = rest.split_at(piece.min(rest.len()));
        match feed_piece(standby, front) {
            Ok(_) => rest = behind,
            Err(fault) => return Err(fault),
        }
    }
    feed_piece(standby, &[])
}

/// What a standby answers, on the log of this disk, to these bytes in pieces of this length: where it ends, or the fault; None where it
/// isn't opened.
pub fn follow<D: LogDisk>(
    alloc: Global,
    disk: &mut D,
    bytes: &[u8],
    piece: usize,
) -> Option<Result<(Fed, Lsn), StandbyFault>> {
    let Some((tail, judge)) = open(alloc, disk) else {
        return None;
    };
    let Ok(mut standby) = Standby::make(alloc, disk, tail, judge) else {
        return None;
    };
    let fed = match feed_all(&mut standby, bytes, piece) {
        Ok(fed) => fed,
        Err(fault) => return Some(Err(fault)),
    };
    match standby.end() {
        Ok(lsn) => Some(Ok((fed, lsn))),
        Err(fault) => Some(Err(fault)),
    }
}
