//! The command `run`.

ghost use Rattle.std.specs.Prelude.{◌≤◌, ◌+◌, ◌↔◌, ℕ, List, All, length, IfOk, IfErr, IsErrOf};
ghost use Rattle.command_line.specs.Ranges.{AreInRange};
ghost use Rattle.log_disk.specs.Attachment.{existing};
ghost use Rattle.log_disk.specs.Faults.{CountsWhere};
ghost use Rattle.log_record.specs.declared.limits.TheConstants.{LAST_TXN};
ghost use Rattle.log_recovery.specs.Opened.{OpenedList};
ghost use Rattle.log_recovery.specs.Recovery.{Recovers};
ghost use Rattle.log_table.specs.Seats.{key_of};
ghost use Rattle.lock_core.specs.Transfers.{IsAllowedJob};
ghost use Rattle.cli_shared.specs.Attached.{EndsAttached};
ghost use Rattle.cli_run.specs.RunReady.{HasRead, IsPreparedFor, HasNoRun, IsBeforeRun};
ghost use Rattle.cli_run.specs.RunFinished.{HasFinished};
ghost use Rattle.cli_threads.specs.Prepared.{IsPrepared};
ghost use Rattle.cli_threads.specs.Transferred.{IsOpened};
ghost use Rattle.cli_shared.specs.World.{TellsFaults, world};
ghost use Rattle.cli_run.specs.Command.{DoesRun};

use cli_ending::conclude;
use cli_shared::{Detail, open_log, read_transfers};
use cli_threads::{Prepared, ReadyRun, prepare, run_transfers};
use command_line::RunOptions;
use log_disk::{Gate, LogDisk, Sink, Source};
use log_recovery::Recovered;
use log_table::Start;
use lsn_space::{NoMemory, Word};
use run_plan::plan_of_run;
use segment_file::settle;
use std::alloc::Global;
use std::sync::Wait;
use std::thread::Threads;
use std::time::Clock;
use txn_script::Script;

/// Makes the transfers of a script over a log, tells each that is durable, and then answers the accounts. It waits for the
/// workers.
pub fn run_command<
    R: Threads + Wait + Clock + Sync,
    D: LogDisk,
    S: Source,
    K: Sink,
    G: Gate + Sync,
>(
    rt: &R,
    alloc: Global,
    log: &Word,
    options: &RunOptions,
    disk: &mut D,
    script: &mut S,
    out: &mut K,
    gate: &G,
) -> Detail
    requires { AreInRange options.now }
    ensures done { DoesRun D.LogDisk S.Source K.Sink log.now options.now
        (world disk.old script.old out.old) (world disk.new script.new out.new) result }
    ensures faults { TellsFaults D.LogDisk S.Source K.Sink (world disk.old script.old out.old) (world disk.new script.new out.new) result }
{
    let (opened, transfers) = match open_and_read(alloc, log, disk, script) {
        Ok(read) => read,
        Err(detail) => return detail,
    };
    let tail = opened.tail;
    let Ok(prepared) = prepare_run(rt, alloc, opened, transfers, options) else {
        return Detail::NoMemory;
    };
    let Ok(tail) = settle(disk, tail.at, tail.next) else {
        prepared.let_go();
        return Detail::Disk;
    };
    let ready = ReadyRun { prepared, tail };
    finish(rt, ready, options, disk, out, gate)
}

/// Makes the transfers that are ready, tells each that is durable, and then answers the accounts.
fn finish<R: Threads + Wait + Clock + Sync, D: LogDisk, K: Sink, G: Gate + Sync>(
    rt: &R,
    ready: ReadyRun,
    options: &RunOptions,
    disk: &mut D,
    out: &mut K,
    gate: &G,
) -> Detail
    requires prepared { IsPrepared ready.prepared }
    requires opened { (opened : OpenedList)
        × IsOpened D.LogDisk disk.old ready.tail opened ready.prepared.jobs.queue.first (key_of ready.prepared.table) }
    ensures { (opened : OpenedList)
        → IsOpened D.LogDisk disk.old ready.tail opened ready.prepared.jobs.queue.first (key_of ready.prepared.table)
        → HasFinished D.LogDisk K.Sink ready.prepared opened ready.tail options.now.wait disk.old disk.new out.old out.new result }
{
    let ReadyRun { prepared, tail } = ready;
    let plan = plan_of_run(options);
    let ended = run_transfers(rt, prepared, disk, tail, out, plan.voice, plan.wait, gate);
    conclude(&ended, out)
}

/// Opens the log, and reads the transfers that are asked of it. Nothing is written to the disk.
fn open_and_read<D: LogDisk, S: Source>(
    alloc: Global,
    log: &Word,
    disk: &mut D,
    script: &mut S,
) -> Result<(Recovered, Script), Detail>
    ensures opened { IfOk result (λ read. HasRead D.LogDisk read.0 read.1 disk.old disk.new (S.left script.old) (S.left script.new)) }
    ensures none { D.honest disk.old → IfErr result
        (HasNoRun D.LogDisk disk.old disk.new (S.left script.old) (S.left script.new)) }
    ensures range { IfErr result IsBeforeRun }
    ensures honest { D.honest disk.old ↔ D.honest disk.new }
    ensures attached { D.honest disk.old → EndsAttached (existing log.now) (D.attached disk.old) (D.attached disk.new) result }
    ensures read { CountsWhere (IsErrOf result Detail.Read) (S.faults script.old) (S.faults script.new) }
    ensures disk { CountsWhere (IsErrOf result Detail.Disk) (D.faults disk.old) (D.faults disk.new) }
{
    let opened = open_log(alloc, log, disk)?;
    let transfers = read_transfers(alloc, &opened, script)?;
    Ok((opened, transfers))
}

/// Asks for the memory of a run that goes on from the opened log.
fn prepare_run<R: Wait>(
    rt: &R,
    alloc: Global,
    opened: Recovered,
    script: Script,
    options: &RunOptions,
) -> Result<Prepared, NoMemory>
    requires options { AreInRange options.now }
    requires opened { (bytes : List ℕ) × Recovers opened bytes }
    requires numbered { opened.next_txn + length script ≤ LAST_TXN }
    requires allowed { All (IsAllowedJob (length opened.accounts.rows)) script }
    ensures { IfOk result (IsPreparedFor options.now opened script) }
{
    let plan = plan_of_run(options);
    let start = Start {
        start: opened.lsn,
        ring: plan.ring,
        slots: plan.slots,
        accounts: opened.accounts,
    };
    prepare(rt, alloc, start, script, opened.next_txn, plan.workers)
}
