//! One flush, and then the lines of what it sent.
ghost use Rattle.std.specs.Prelude.{◌≤◌, ◌+◌, length, IfOk, IfErr, OnOk};
ghost use Rattle.flusher.specs.Flushing.{IsSame, sent_of};
ghost use Rattle.daemon_turn.specs.OneTurn.{MayGoOn, Made, Failed};

use crate::fault::DaemonFault;
use crate::stopping::tell_fault;
use crate::telling::tell;
use end_lines::{Tally, Voice};
use flusher::{Flushed, Flusher};
use log_disk::{LogDisk, Sink};
use lsn_space::Lsn;

/// What a turn did.
#[derive(Clone, Copy, Debug, PartialEq, Eq)]
pub enum Turn {
    /// Nothing was exposed beyond durable.
    Idle,
    /// Units were sent up to this LSN, and then so many lines were written.
    Sent { lines: u32, to: Lsn },
}

/// Flushes, and then writes a line for each end record in what was sent. A fault is told to the workers by the stop
/// word before it is answered, and no further turn may be made. With `Voice::Count` no line is written.
pub fn make_turn<D: LogDisk, K: Sink>(
    flusher: &mut Flusher<D>,
    voice: Voice,
    sink: &mut K,
    tally: &mut Tally,
) -> Result<Turn, DaemonFault>
    requires ready { MayGoOn D.LogDisk flusher.old tally.old }
    ensures made { IfOk result (Made D.LogDisk K.Sink voice flusher.old flusher.new sink.old sink.new tally.old tally.new) }
    ensures failed { IfErr result (Failed D.LogDisk K.Sink voice flusher.old flusher.new sink.old sink.new tally.old tally.new) }
    ensures ready { OnOk result (MayGoOn D.LogDisk flusher.new tally.new) }
    ensures same { IsSame D.LogDisk flusher.old flusher.new }

    // Even where it fails, no more end records were counted than units were sent.
    ensures counted { tally.new.done + tally.new.refused ≤ length (sent_of flusher.new) }
{
    let Ok(flushed) = flusher.flush() else {
        return Err(tell_fault(flusher.table, &mut flusher.seat, DaemonFault::DiskFault));
    };
    let Flushed::To { from, to } = flushed else {
        return Ok(Turn::Idle);
    };
    let told = tell(flusher, from, voice, sink, tally);
    match told {
        Ok(lines) => Ok(Turn::Sent { lines, to }),
        Err(_) => Err(tell_fault(flusher.table, &mut flusher.seat, DaemonFault::WriteFault)),
    }
}
