//! The command `follow`: a log that takes in a stream, frame by frame.
ghost use Rattle.std.specs.Prelude.{◌≡◌, IfOk, IfErr, IsErrOf};
ghost use Rattle.log_disk.specs.Attachment.{existing};
ghost use Rattle.log_disk.specs.Faults.{CountsWhere};
ghost use Rattle.standby.specs.TakenList.{KeepsList};
ghost use Rattle.log_recovery.specs.Opened.{OpenedList};
ghost use Rattle.cli_standby.specs.Feeding.{begun, FeedEnds, FollowEnds, HasFedAll, HasFedEnd, HasFedWhole, IsFeedingFault, IsUnfed, StopsFeeding, stream_detail};
ghost use Rattle.cli_shared.specs.World.{TellsFaults, world};
ghost use Rattle.cli_standby.specs.Command.{DoesFollow};

use crate::opening::open_standby;
use cli_shared::Detail;
use lock_core::Judge;
use log_disk::{LogDisk, Sink, Source};
use log_recovery::put_accounts;
use lsn_space::{Balances, Lsn, Word};
use segment_file::Tail;
use standby::{Standby, StandbyFault};
use std::alloc::Global;

/// How many bytes are read at a time.
const PIECE: usize = 4096;

/// The disk of a standby.
#[derive(Drop)]
struct Kept<'a, D> {
    disk: &'a mut D,
}

/// Appends the frames of the stream that is read to a log, each once it is whole and lawful, and then answers the accounts. It waits for
/// the input.
pub fn follow_command<D: LogDisk, S: Source, K: Sink>(
    alloc: Global,
    log: &Word,
    disk: &mut D,
    input: &mut S,
    out: &mut K,
) -> Detail
    ensures done { DoesFollow D.LogDisk S.Source K.Sink log.now
        (world disk.old input.old out.old) (world disk.new input.new out.new) result }
    ensures faults { TellsFaults D.LogDisk S.Source K.Sink (world disk.old input.old out.old) (world disk.new input.new out.new) result }
{
    let (lsn, accounts) = match follow(alloc, log, disk, input) {
        Ok(both) => both,
        Err(detail) => return detail,
    };
    match put_accounts(lsn, &accounts, out) {
        Ok(()) => Detail::Fine,
        Err(_) => Detail::Write,
    }
}

/// Opens the log, and follows the stream to its end. It answers where the log ends then, and its accounts.
fn follow<D: LogDisk, S: Source>(
    alloc: Global,
    log: &Word,
    disk: &mut D,
    input: &mut S,
) -> Result<(Lsn, Balances), Detail>
    ensures { FollowEnds D.LogDisk S.Source (existing log.now) disk.old disk.new input.old input.new result }
{
    let (tail, judge) = open_standby(alloc, log, disk)?;
    let mut followed = Err(Detail::NoMemory);
    let _kept = follow_stream(alloc, Kept { disk }, tail, judge, input, &mut followed);
    followed
}

/// Follows the stream from the tail on, and tells where the log ends then, and its accounts.
fn follow_stream<'a, D: LogDisk, S: Source>(
    alloc: Global,
    kept: Kept<'a, D>,
    tail: Tail,
    judge: Judge,
    input: &mut S,
    followed: &mut Result<(Lsn, Balances), Detail>,
) -> Kept<'a, D>
    requires { (list : OpenedList) × KeepsList D.LogDisk list judge tail kept.disk.now }
    ensures ok { IfOk followed.new (λ both. (list : OpenedList) → KeepsList D.LogDisk list judge tail kept.entry.disk.now
        → HasFedWhole D.LogDisk (begun list tail kept.entry.disk.now) (S.left input.old) (S.left input.new) both.0 both.1.rows
        result.disk.now) }
    ensures stops { IfErr followed.new (λ detail. (list : OpenedList) → KeepsList D.LogDisk list judge tail kept.entry.disk.now
        → StopsFeeding D.LogDisk (begun list tail kept.entry.disk.now) (S.left input.old) (S.left input.new) detail result.disk.now) }
    ensures range { IfErr followed.new IsFeedingFault }
    ensures read { CountsWhere (IsErrOf followed.new Detail.Read) (S.faults input.old) (S.faults input.new) }
    ensures same { result.disk.ghost_name ≡ kept.entry.disk.ghost_name }
{
    let Kept { disk } = kept;
    let mut standby = match Standby::make(alloc, disk, tail, judge) {
        Ok(standby) => standby,
        Err(unmade) => {
            *followed = Err(Detail::NoMemory);
            return Kept { disk: unmade.disk };
        }
    };
    let ended = end_stream(&mut standby, input);
    let Standby { disk, judge, .. } = standby;
    match ended {
        Ok(lsn) => {
            *followed = Ok((lsn, judge.into_accounts()));
            Kept { disk }
        }
        Err(detail) => {
            *followed = Err(detail);
            Kept { disk }
        }
    }
}

/// Feeds a standby, to which no byte has come, the whole input, and answers where the log ends then.
fn end_stream<D: LogDisk, S: Source>(
    standby: &mut Standby<'_, D>,
    input: &mut S,
) -> Result<Lsn, Detail>
    requires { IsUnfed D.LogDisk standby.old }
    ensures { FeedEnds D.LogDisk S.Source
        (λ base lsn. HasFedEnd D.LogDisk base (S.left input.old) (S.left input.new) lsn standby.new)
        standby.old standby.new input.old input.new result }
{
    if let Err(detail) = feed_all(standby, input) {
        return Err(detail);
    }
    match standby.end() {
        Ok(lsn) => Ok(lsn),
        Err(fault) => Err(detail_of_stream(fault)),
    }
}

/// Feeds a standby, to which no byte has come, the whole input, piece by piece.
fn feed_all<D: LogDisk, S: Source>(
    standby: &mut Standby<'_, D>,
    input: &mut S,
) -> Result<(), Detail>
    requires { IsUnfed D.LogDisk standby.old }
    ensures { FeedEnds D.LogDisk S.Source
        (λ base done. HasFedAll D.LogDisk base (S.left input.old) (S.left input.new) standby.new)
        standby.old standby.new input.old input.new result }
{
    let mut buf = [0; PIECE];
    'pieces: loop {
        let count = match input.read(&mut buf) {
            Ok(0) => return Ok(()),
            Ok(count) => count,
            Err(_) => return Err(Detail::Read),
        };
        match standby.feed(&buf[..count]) {
            Ok(_) => {}
            Err(fault) => return Err(detail_of_stream(fault)),
        }
    }
}

/// How the program ends where a standby goes no further.
fn detail_of_stream(fault: StandbyFault) -> Detail
    ensures { result ≡ stream_detail fault }
{
    match fault {
        StandbyFault::BadStream { offset } => Detail::BadStream { offset },
        StandbyFault::Gap { have, from } => Detail::Gap { have, from },
        StandbyFault::StreamUnlawful { lsn, why } => Detail::StreamUnlawful { lsn, why },
        StandbyFault::DiskFault => Detail::Disk,
        StandbyFault::NoMemory => Detail::NoMemory,
    }
}
