//! A log of generated accounts, and generated transfers over it.
ghost use Rattle.std.specs.Prelude.{◌≡◌, ◌≤◌, ◌+◌, ◌↔◌, IfOk};
ghost use Rattle.command_line.specs.Ranges.{AreInRange};
ghost use Rattle.log_disk.specs.Faults.{CountsWhere};
ghost use Rattle.log_record.specs.LogList.{units_of};
ghost use Rattle.log_table.specs.Seats.{key_of};
ghost use Rattle.lsn_space.specs.declared.numerals.TheConstants.{MOST_GENERATED};
ghost use Rattle.cli_demo.specs.Demo.{IsPreparedDemo};
ghost use Rattle.cli_demo.specs.Finished.{HasFinished};
ghost use Rattle.cli_demo.specs.Summary.{generated_opening};
ghost use Rattle.cli_threads.specs.Prepared.{IsPrepared};
ghost use Rattle.cli_threads.specs.Transferred.{IsOpened};
ghost use Rattle.cli_demo.specs.Command.{HasDemonstrated};

use cli_ending::conclude_counted;
use cli_shared::genesis::genesis;
use cli_shared::{Detail, finds_none};
use cli_threads::{Prepared, ReadyRun, prepare, run_transfers};
use command_line::RunOptions;
use log_disk::{Gate, LogDisk, Sink};
use log_table::Start;
use lsn_space::{Lsn, NoMemory, Word};
use run_plan::{Generated, generate, plan_of_demo};
use segment_file::{Batch, create};
use std::alloc::Global;
use std::sync::Wait;
use std::thread::Threads;
use std::time::Clock;
use txn_script::GENERATED_ACCOUNTS;

/// Makes a log of generated accounts, makes over it so many transfers of this seed, and then answers their summary. It
/// waits for the workers.
pub fn demo_command<R: Threads + Wait + Clock + Sync, D: LogDisk, K: Sink, G: Gate + Sync>(
    rt: &R,
    alloc: Global,
    log: &Word,
    transfers: u32,
    seed: u32,
    options: &RunOptions,
    disk: &mut D,
    out: &mut K,
    gate: &G,
) -> Detail
    requires options { AreInRange options.now }
    requires few { transfers ≤ MOST_GENERATED }
    ensures done { HasDemonstrated D.LogDisk K.Sink log.now transfers seed options.now disk.old disk.new out.old out.new result }
    ensures honest { D.honest disk.old ↔ D.honest disk.new }
    ensures write { CountsWhere (result ≡ Detail.Write) (K.faults out.old) (K.faults out.new) }
    ensures disk { CountsWhere (result ≡ Detail.Disk) (D.faults disk.old) (D.faults disk.new) }
{
    if let Err(detail) = finds_none(disk, log) {
        return detail;
    }
    let Ok((prepared, mut batch)) = prepare_demo(rt, alloc, transfers, seed, options) else {
        return Detail::NoMemory;
    };
    let Ok(tail) = create(disk, &mut batch) else {
        prepared.let_go();
        return Detail::Disk;
    };
    let ready = ReadyRun { prepared, tail };
    finish(rt, ready, transfers, options, disk, out, gate)
}

/// Makes the transfers that are ready, which are counted and not told, and then answers the summary of so many.
fn finish<R: Threads + Wait + Clock + Sync, D: LogDisk, K: Sink, G: Gate + Sync>(
    rt: &R,
    ready: ReadyRun,
    transfers: u32,
    options: &RunOptions,
    disk: &mut D,
    out: &mut K,
    gate: &G,
) -> Detail
    requires prepared { IsPrepared ready.prepared }
    requires opened { IsOpened D.LogDisk disk.old ready.tail generated_opening ready.prepared.jobs.queue.first
        (key_of ready.prepared.table) }
    ensures { HasFinished D.LogDisk K.Sink ready.prepared ready.tail transfers disk.old disk.new out.old out.new result }
{
    let ReadyRun { prepared, tail } = ready;
    let plan = plan_of_demo(options);
    let ended = run_transfers(rt, prepared, disk, tail, out, plan.voice, plan.wait, gate);
    conclude_counted(&ended, transfers, out)
}

/// Asks for the memory of the run, and spells the list of the log that it runs over.
fn prepare_demo<R: Wait>(
    rt: &R,
    alloc: Global,
    transfers: u32,
    seed: u32,
    options: &RunOptions,
) -> Result<(Prepared, Batch), NoMemory>
    requires options { AreInRange options.now }
    requires few { transfers ≤ MOST_GENERATED }
    ensures prepared { IfOk result (λ made. IsPreparedDemo transfers seed options.now made.0) }
    ensures batch { IfOk result (λ made. made.1.units ≡ units_of generated_opening.records) }
{
    let Generated { script, accounts } = generate(alloc, transfers, seed)?;
    let batch = genesis(alloc, &accounts)?;
    let plan = plan_of_demo(options);
    let start = Start {
        start: Lsn::new(2 * GENERATED_ACCOUNTS),
        ring: plan.ring,
        slots: plan.slots,
        accounts,
    };
    let prepared = prepare(rt, alloc, start, script, 1, plan.workers)?;
    Ok((prepared, batch))
}
