//! All that the program does.

ghost use Rattle.std.specs.Prelude.{◌≡◌, ◌⊎◌, ◌↔◌, ℕ, List};
ghost use Rattle.command_line.specs.CommandLine.{IsCommandLine, AreTaken};
ghost use Rattle.command_line.specs.declared.command.Command.TheVariants.{New, Run, Recover, Dump, Demo, Cut, Upgrade, Ship, Follow, AsOf, Statement};
ghost use Rattle.command_line.specs.declared.options.RunOptions.{RunOptions};
ghost use Rattle.log_disk.specs.Costs.{Costs};
ghost use Rattle.log_disk.specs.Faults.{CountsWhere};
ghost use Rattle.cli_shared.specs.Answers.{status_of, StaysSilent};
ghost use Rattle.cli_shared.specs.World.{world};
ghost use Rattle.cli_top.specs.Answered.{Answered, Obeys};
ghost use Rattle.cli_top.specs.Asks.{AsksNew, AsksRun, AsksDemo, AsksCut, AsksUpgrade, AsksFollow};
ghost use Rattle.cli_top.specs.Commands.{FulfilsAsOf, FulfilsCut, FulfilsDemo, FulfilsDump, FulfilsFollow, FulfilsNew, FulfilsRecover, FulfilsRun, FulfilsShip, FulfilsStatement, FulfilsUpgrade};
ghost use Rattle.cli_dispatch.specs.Alone.{command_of};

use cli_demo::demo_command::demo_command;
use cli_dispatch::{Answer, WithWorkers, answer_alone};
use cli_run::run_command::run_command;
use cli_shared::{Detail, Report};
use log_disk::{Gate, LogDisk, Sink, Source};
use lsn_space::Word;
use std::alloc::Global;
use std::sync::Wait;
use std::thread::Threads;
use std::time::Clock;

/// All that the program does, on its words, the program's name first, on a disk, and on what it reads and writes.
pub fn aether<R: Threads + Wait + Clock + Sync, D: LogDisk, S: Source, K: Sink, G: Gate + Sync>(
    rt: &R,
    alloc: Global,
    words: &[Word],
    disk: &mut D,
    script: &mut S,
    out: &mut K,
    gate: &G,
) -> Report
    ensures status { result.status ≡ status_of result.detail }

    // The words alone decide whether they are a command; where they aren't, nothing is read or written.
    ensures usage { result.detail ≡ Detail.Usage → AreTaken words.now → ⊥ }
    ensures refused { (AreTaken words.now → ⊥) → (result.detail ≡ Detail.Usage) ⊎ (result.detail ≡ Detail.NoMemory) }
    ensures unread { (AreTaken words.now → ⊥) → script.new ≡ script.old }
    ensures unwritten { (AreTaken words.now → ⊥) → out.new ≡ out.old }
    ensures untouched { (AsksNew words.now → ⊥) → (AsksRun words.now → ⊥) → (AsksDemo words.now → ⊥) → (AsksCut words.now → ⊥)
        → (AsksUpgrade words.now → ⊥) → (AsksFollow words.now → ⊥) → disk.new ≡ disk.old }

    // What each command does, and that it is done where it finds what it needs and answers no fault. `recover` and `dump`: for the bytes of
    // the input, the text that is written, and what is left of them.
    ensures recover { IsCommandLine words.now Recover
        → FulfilsRecover S.Source K.Sink (world disk.old script.old out.old) (world disk.new script.new out.new) result.detail }
    ensures dump { IsCommandLine words.now Dump
        → FulfilsDump S.Source K.Sink (world disk.old script.old out.old) (world disk.new script.new out.new) result.detail }

    // `new`: the same, what a crash may leave of the disk, and how long its file gets.
    ensures new { (log : List ℕ) → IsCommandLine words.now (New log)
        → FulfilsNew D.LogDisk S.Source K.Sink log (world disk.old script.old out.old) (world disk.new script.new out.new) result.detail }

    // `run`: what a crash may leave of the disk at each moment, how long its file gets, what was written, and why it ended.
    ensures run { (log : List ℕ) (options : RunOptions) → IsCommandLine words.now (Run log options)
        → FulfilsRun D.LogDisk S.Source K.Sink log options (world disk.old script.old out.old) (world disk.new script.new out.new) result.detail }

    // `demo`: what a crash may leave of the disk at each moment, how long its file gets, and the summary, which is the same whatever the
    // options. It reads nothing.
    ensures demo { (log : List ℕ) (n seed : ℕ) (options : RunOptions) → IsCommandLine words.now (Demo log n seed options)
        → FulfilsDemo D.LogDisk K.Sink log n seed options (world disk.old script.old out.old) (world disk.new script.new out.new) result.detail }

    // `cut` and `upgrade`: for the bytes of the input, meant to be another log's, the text that is written, what a crash may leave of
    // the disk, and how long its file gets.
    ensures cut { (log : List ℕ) → IsCommandLine words.now (Cut log)
        → FulfilsCut D.LogDisk S.Source K.Sink log (world disk.old script.old out.old) (world disk.new script.new out.new) result.detail }
    ensures upgrade { (log : List ℕ) → IsCommandLine words.now (Upgrade log)
        → FulfilsUpgrade D.LogDisk S.Source K.Sink log (world disk.old script.old out.old) (world disk.new script.new out.new) result.detail }

    // `ship`, `asof` and `statement`: for the bytes of the input, what is written of the lawful list that they hold, or why nothing is. The
    // disk is left alone.
    ensures ship { (from : ℕ) → IsCommandLine words.now (Ship from)
        → FulfilsShip S.Source K.Sink from (world disk.old script.old out.old) (world disk.new script.new out.new) result.detail }
    ensures asof { (lsn : ℕ) → IsCommandLine words.now (AsOf lsn)
        → FulfilsAsOf S.Source K.Sink lsn (world disk.old script.old out.old) (world disk.new script.new out.new) result.detail }
    ensures statement { (account : ℕ) → IsCommandLine words.now (Statement account)
        → FulfilsStatement S.Source K.Sink account (world disk.old script.old out.old) (world disk.new script.new out.new) result.detail }

    // `follow`: what a crash may leave of the disk at each moment, for any stream, how long its file gets, and the text that is written.
    ensures follow { (log : List ℕ) → IsCommandLine words.now (Follow log)
        → FulfilsFollow D.LogDisk S.Source K.Sink log (world disk.old script.old out.old) (world disk.new script.new out.new) result.detail }

    // The most writes and syncs that succeed, and the most calls, of a command that makes no batches of its own.
    ensures count { (AsksRun words.now → ⊥) → (AsksDemo words.now → ⊥) → (AsksUpgrade words.now → ⊥) → (AsksFollow words.now → ⊥)
        → D.honest disk.old → Costs D.LogDisk 7 11 disk.old disk.new }

    // By the commands other than `run` nothing is printed but where all is fine or the writing failed.
    ensures silent { (AsksRun words.now → ⊥) → StaysSilent (K.held_bytes out.old) (K.held_bytes out.new) result.detail }

    // What is said of an honest disk may be said of it again at the next call.
    ensures honest { D.honest disk.old ↔ D.honest disk.new }

    // At most one fault is counted in the whole call, of all three together, and it is the one that is answered: no call that failed is
    // tried again, none is made of an object that failed, and any other answer counts none.
    ensures read { CountsWhere (result.detail ≡ Detail.Read) (S.faults script.old) (S.faults script.new) }
    ensures write { CountsWhere (result.detail ≡ Detail.Write) (K.faults out.old) (K.faults out.new) }
    ensures disk { CountsWhere (result.detail ≡ Detail.Disk) (D.faults disk.old) (D.faults disk.new) }
{
    Report::of(answer(rt, alloc, words, disk, script, out, gate))
}

/// What the command answers that the words ask, or why they ask none.
fn answer<R: Threads + Wait + Clock + Sync, D: LogDisk, S: Source, K: Sink, G: Gate + Sync>(
    rt: &R,
    alloc: Global,
    words: &[Word],
    disk: &mut D,
    script: &mut S,
    out: &mut K,
    gate: &G,
) -> Detail
    ensures { Answered D.LogDisk S.Source K.Sink words.now (world disk.old script.old out.old) (world disk.new script.new out.new) result }
{
    match answer_alone(alloc, words, disk, script, out) {
        Answer::Done(detail) => detail,
        Answer::Asked(asked) => obey(rt, alloc, &asked, disk, script, out, gate),
    }
}

/// Obeys a command that needs workers.
fn obey<R: Threads + Wait + Clock + Sync, D: LogDisk, S: Source, K: Sink, G: Gate + Sync>(
    rt: &R,
    alloc: Global,
    asked: &WithWorkers,
    disk: &mut D,
    script: &mut S,
    out: &mut K,
    gate: &G,
) -> Detail
    requires { (words : List (List ℕ)) × IsCommandLine words (command_of asked.now) }
    ensures { Obeys D.LogDisk S.Source K.Sink (command_of asked.now)
        (world disk.old script.old out.old) (world disk.new script.new out.new) result }
{
    match asked {
        WithWorkers::Run { log, options } => {
            run_command(rt, alloc, log, options, disk, script, out, gate)
        }
        WithWorkers::Demo {
            log,
            transfers,
            seed,
            options,
        } => demo_command(rt, alloc, log, *transfers, *seed, options, disk, out, gate),
    }
}
