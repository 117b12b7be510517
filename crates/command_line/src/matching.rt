//! What the program's command finds in words.
ghost use Rattle.std.specs.Prelude.{◌≡◌, IfErr, IfOk, MatchResult, true};
ghost use Rattle.clap.specs.Words.{app_of, kind_of, subcommand_of, subcommand_rows_of, takes};
ghost use Rattle.clap.specs.declared.error.kind.ErrorKind.TheVariants.{OutOfMemory};
ghost use Rattle.command_line.specs.CommandLine.{aether_command, AreKnown, IsMismatchOf};

use crate::command::RefusedWords;
use crate::definition::aether;
use clap::error::ErrorKind;
use clap::{ArgMatches, Command, Error};
use lsn_space::Word;
use std::alloc::Global;

/// What the program's command finds in the words.
pub(crate) fn matches_of<'a>(
    alloc: Global,
    words: &'a [Word],
) -> Result<ArgMatches<'a>, RefusedWords>
    ensures ok { IfOk result (λ m. subcommand_rows_of m ≡ subcommand_of aether_command words.entry.now) }
    ensures exact { MatchResult result (λ _. AreKnown words.entry.now) (IsMismatchOf words.entry.now) }
    ensures taken { takes aether_command words.entry.now ≡ true → IfErr result (λ e. e ≡ RefusedWords.NoMemory) }
{
    let Ok(command) = aether(alloc) else {
        return Err(RefusedWords::NoMemory);
    };
    found_by(command, words)
}

/// What this command, which is the program's, finds in the words.
fn found_by<'a>(command: Command<'a>, words: &'a [Word]) -> Result<ArgMatches<'a>, RefusedWords>
    requires { app_of command ≡ aether_command }
    ensures ok { IfOk result (λ m. subcommand_rows_of m ≡ subcommand_of aether_command words.entry.now) }
    ensures exact { MatchResult result (λ _. AreKnown words.entry.now) (IsMismatchOf words.entry.now) }
    ensures taken { takes aether_command words.entry.now ≡ true → IfErr result (λ e. e ≡ RefusedWords.NoMemory) }
{
    match command.try_get_matches_from(words) {
        Ok(matches) => Ok(matches),
        Err(error) => Err(refusal_of(&error)),
    }
}

/// Why words are refused at which this error came.
fn refusal_of(error: &Error) -> RefusedWords
    ensures { kind_of error.now ≡ OutOfMemory → result ≡ RefusedWords.NoMemory }
{
    match error.kind() {
        ErrorKind::OutOfMemory => RefusedWords::NoMemory,
        _ => RefusedWords::Usage,
    }
}
