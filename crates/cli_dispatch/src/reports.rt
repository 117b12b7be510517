//! The commands that read a log and write a report of it: `recover`, `dump`, `ship`, `asof` and `statement`. They leave the disk alone.
ghost use Rattle.command_line.specs.declared.command.Command.TheVariants.{AsOf, Dump, Recover, Ship, Statement};
ghost use Rattle.cli_shared.specs.World.{world};
ghost use Rattle.cli_dispatch.specs.Alone.{ObeysAlone};

use cli_reports::dump_command::dump_command;
use cli_reports::recover_command::recover_command;
use cli_shared::Detail;
use cli_standby::ship_command::ship_command;
use cli_view::asof_command::asof_command;
use cli_view::statement_command::statement_command;
use log_disk::{LogDisk, Sink, Source};
use lsn_space::Lsn;
use std::alloc::Global;

/// What `recover` answers.
pub fn obey_recover<D: LogDisk, S: Source, K: Sink>(
    alloc: Global,
    disk: &mut D,
    input: &mut S,
    out: &mut K,
) -> Detail
    ensures { ObeysAlone D.LogDisk S.Source K.Sink Recover (world disk.old input.old out.old) (world disk.new input.new out.new) result }
{
    recover_command(alloc, input, out)
}

/// What `dump` answers.
pub fn obey_dump<D: LogDisk, S: Source, K: Sink>(
    alloc: Global,
    disk: &mut D,
    input: &mut S,
    out: &mut K,
) -> Detail
    ensures { ObeysAlone D.LogDisk S.Source K.Sink Dump (world disk.old input.old out.old) (world disk.new input.new out.new) result }
{
    dump_command(alloc, input, out)
}

/// What `ship` answers.
pub fn obey_ship<D: LogDisk, S: Source, K: Sink>(
    alloc: Global,
    from: u32,
    disk: &mut D,
    input: &mut S,
    out: &mut K,
) -> Detail
    ensures { ObeysAlone D.LogDisk S.Source K.Sink (Ship from)
        (world disk.old input.old out.old) (world disk.new input.new out.new) result }
{
    ship_command(alloc, Lsn::new(from), input, out)
}

/// What `asof` answers.
pub fn obey_asof<D: LogDisk, S: Source, K: Sink>(
    alloc: Global,
    lsn: u32,
    disk: &mut D,
    input: &mut S,
    out: &mut K,
) -> Detail
    ensures { ObeysAlone D.LogDisk S.Source K.Sink (AsOf lsn)
        (world disk.old input.old out.old) (world disk.new input.new out.new) result }
{
    asof_command(alloc, Lsn::new(lsn), input, out)
}

/// What `statement` answers.
pub fn obey_statement<D: LogDisk, S: Source, K: Sink>(
    alloc: Global,
    account: u32,
    disk: &mut D,
    input: &mut S,
    out: &mut K,
) -> Detail
    ensures { ObeysAlone D.LogDisk S.Source K.Sink (Statement account)
        (world disk.old input.old out.old) (world disk.new input.new out.new) result }
{
    statement_command(alloc, account, input, out)
}
