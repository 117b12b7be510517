//! The words of the command line, and the commands that they ask where no workers are needed.
ghost use Rattle.cli_shared.specs.World.{world};
ghost use Rattle.cli_dispatch.specs.Alone.{AnsweredAlone};

use crate::answer::{Answer, WithWorkers};
use crate::reports::{obey_asof, obey_dump, obey_recover, obey_ship, obey_statement};
use cli_cut::cut_command::cut_command;
use cli_cut::upgrade_command::upgrade_command;
use cli_new::new_command::new_command;
use cli_shared::Detail;
use cli_standby::follow_command::follow_command;
use command_line::{Command, RefusedWords, parse};
use log_disk::{LogDisk, Sink, Source};
use lsn_space::Word;
use std::alloc::Global;

/// What the command answers that the words ask, or why they ask none; `run` and `demo` are left to the caller.
pub fn answer_alone<D: LogDisk, S: Source, K: Sink>(
    alloc: Global,
    words: &[Word],
    disk: &mut D,
    input: &mut S,
    out: &mut K,
) -> Answer
    ensures { AnsweredAlone D.LogDisk S.Source K.Sink words.now
        (world disk.old input.old out.old) (world disk.new input.new out.new) result }
{
    match parse(alloc, words) {
        Ok(Command::New { log }) => Answer::Done(new_command(alloc, &log, disk, input, out)),
        Ok(Command::Recover) => Answer::Done(obey_recover(alloc, disk, input, out)),
        Ok(Command::Cut { log }) => Answer::Done(cut_command(alloc, &log, disk, input, out)),
        Ok(Command::Upgrade { log }) => Answer::Done(upgrade_command(
            alloc, &log, disk, input, out,
        )),
        Ok(Command::Ship { from }) => Answer::Done(obey_ship(alloc, from, disk, input, out)),
        Ok(Command::Follow { log }) => Answer::Done(follow_command(alloc, &log, disk, input, out)),
        Ok(Command::AsOf { lsn }) => Answer::Done(obey_asof(alloc, lsn, disk, input, out)),
        Ok(Command::Statement { account }) => {
            Answer::Done(obey_statement(alloc, account, disk, input, out))
        }
        Ok(Command::Dump) => Answer::Done(obey_dump(alloc, disk, input, out)),
        Ok(Command::Run { log, options }) => Answer::Asked(WithWorkers::Run { log, options }),
        Ok(
            Command::Demo {
                log,
                transfers,
                seed,
                options,
            },
        ) => Answer::Asked(WithWorkers::Demo {
            log,
            transfers,
            seed,
            options,
        }),
        Err(RefusedWords::Usage) => Answer::Done(Detail::Usage),
        Err(RefusedWords::NoMemory) => Answer::Done(Detail::NoMemory),
    }
}
