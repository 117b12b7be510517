//! The words of the command line, and what they ask.
ghost use Rattle.std.specs.Prelude.{◌≡◌, ◌⊎◌, List, ℕ, IfErr, MatchResult, true};
ghost use Rattle.clap.specs.Words.{found_of, rows_of, subcommand_of, subcommand_rows_of, takes};
ghost use Rattle.command_line.specs.CommandLine.{aether_command, Answers, AreKnown, IsCommandLine, IsRefusalOf, IsSubcommand, NamesBadNumbers, NamesSubcommand, log_in, name_of};

use crate::command::{Command, RefusedWords, Subcommand};
use crate::matching::matches_of;
use crate::options::{given_in, options_in};
use clap::ArgMatches;
use lsn_space::{LAST, MOST_ACCOUNTS, MOST_GENERATED, Word};
use std::alloc::Global;

/// The greatest seed of generated transfers.
pub const GREATEST_SEED: u32 = 65536;

/// The greatest account.
pub const GREATEST_ACCOUNT: u32 = MOST_ACCOUNTS - 1;

/// What the words ask.
pub fn parse(alloc: Global, words: &[Word]) -> Result<Command, RefusedWords>
    ensures exact { MatchResult result (IsCommandLine words.now) (IsRefusalOf words.now) }
    ensures taken { takes aether_command words.now ≡ true → IfErr result (λ e. (e ≡ RefusedWords.NoMemory) ⊎ NamesBadNumbers words.now) }
{
    match matches_of(alloc, words) {
        Ok(matches) => asked_by(alloc, &matches),
        Err(refused) => Err(refused),
    }
}

/// What words ask in which this was found.
fn asked_by(alloc: Global, matches: &ArgMatches<'_>) -> Result<Command, RefusedWords>
    requires { (words : List (List ℕ)) × AreKnown words × (subcommand_rows_of matches.now ≡ subcommand_of aether_command words) }
    ensures exact { (words : List (List ℕ)) → AreKnown words → subcommand_rows_of matches.now ≡ subcommand_of aether_command words
        → MatchResult result (IsCommandLine words) (IsRefusalOf words) }
    ensures taken { (words : List (List ℕ)) → AreKnown words → subcommand_rows_of matches.now ≡ subcommand_of aether_command words
        → IfErr result (λ e. (e ≡ RefusedWords.NoMemory) ⊎ NamesBadNumbers words) }
{
    let Some((name, found)) = matches.subcommand() else {
        unreachable!()
    };
    asked(alloc, name, found)
}

/// What words ask that name this subcommand, with what is found of it.
fn asked(alloc: Global, name: &str, found: &ArgMatches<'_>) -> Result<Command, RefusedWords>
    requires { IsSubcommand name.now }
    ensures exact { (words : List (List ℕ)) → AreKnown words → NamesSubcommand words name.now (rows_of (found_of found.now))
        → MatchResult result (IsCommandLine words) (IsRefusalOf words) }
    ensures taken { (words : List (List ℕ)) → AreKnown words → NamesSubcommand words name.now (rows_of (found_of found.now))
        → IfErr result (λ e. (e ≡ RefusedWords.NoMemory) ⊎ NamesBadNumbers words) }
{
    answer(alloc, subcommand(name), found)
}

/// The subcommand of this name.
fn subcommand(name: &str) -> Subcommand
    requires { IsSubcommand name.now }
    ensures { name.now ≡ name_of result }
{
    match name {
        "new" => Subcommand::New,
        "run" => Subcommand::Run,
        "recover" => Subcommand::Recover,
        "dump" => Subcommand::Dump,
        "demo" => Subcommand::Demo,
        "cut" => Subcommand::Cut,
        "upgrade" => Subcommand::Upgrade,
        "ship" => Subcommand::Ship,
        "follow" => Subcommand::Follow,
        "asof" => Subcommand::AsOf,
        "statement" => Subcommand::Statement,
        _ => unreachable!(),
    }
}

/// What this subcommand asks, with what is found of it.
fn answer(
    alloc: Global,
    subcommand: Subcommand,
    found: &ArgMatches<'_>,
) -> Result<Command, RefusedWords>
    ensures { Answers subcommand (rows_of (found_of found.now)) result }
{
    match subcommand {
        Subcommand::New => Ok(Command::New {
            log: log_of(alloc, found)?,
        }),
        Subcommand::Run => run(alloc, found),
        Subcommand::Recover => Ok(Command::Recover),
        Subcommand::Dump => Ok(Command::Dump),
        Subcommand::Demo => demo(alloc, found),
        Subcommand::Cut => Ok(Command::Cut {
            log: log_of(alloc, found)?,
        }),
        Subcommand::Upgrade => Ok(Command::Upgrade {
            log: log_of(alloc, found)?,
        }),
        Subcommand::Ship => Ok(Command::Ship {
            from: given_in(found, "FROM", LAST)?,
        }),
        Subcommand::Follow => Ok(Command::Follow {
            log: log_of(alloc, found)?,
        }),
        Subcommand::AsOf => Ok(Command::AsOf {
            lsn: given_in(found, "LSN", LAST)?,
        }),
        Subcommand::Statement => Ok(Command::Statement {
            account: given_in(found, "ACCOUNT", GREATEST_ACCOUNT)?,
        }),
    }
}

fn run(alloc: Global, found: &ArgMatches<'_>) -> Result<Command, RefusedWords>
    ensures { Answers Subcommand.Run (rows_of (found_of found.now)) result }
{
    let Some(options) = options_in(found) else {
        return Err(RefusedWords::Usage);
    };
    let log = log_of(alloc, found)?;
    Ok(Command::Run { log, options })
}

fn demo(alloc: Global, found: &ArgMatches<'_>) -> Result<Command, RefusedWords>
    ensures { Answers Subcommand.Demo (rows_of (found_of found.now)) result }
{
    let transfers = given_in(found, "N", MOST_GENERATED)?;
    let seed = given_in(found, "SEED", GREATEST_SEED)?;
    let Some(options) = options_in(found) else {
        return Err(RefusedWords::Usage);
    };
    let log = log_of(alloc, found)?;
    Ok(Command::Demo {
        log,
        transfers,
        seed,
        options,
    })
}

/// The value of LOG.
fn log_of(alloc: Global, found: &ArgMatches<'_>) -> Result<Word, RefusedWords>
    ensures { MatchResult result (λ log. log ≡ log_in (rows_of (found_of found.now))) (λ e. e ≡ RefusedWords.NoMemory) }
{
    match Word::make(alloc, found.get_str("LOG").unwrap_or("")) {
        Ok(log) => Ok(log),
        Err(_) => Err(RefusedWords::NoMemory),
    }
}
