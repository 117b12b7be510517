//! The command of the program, as `clap` builds it. `specs/CommandLine.antt` has it as one term.
ghost use Rattle.std.specs.Prelude.{◌≡◌, IfOk, false};
ghost use Rattle.clap.specs.Words.{App, Rule, app_of, rule_of, with_rule, with_subcommand};
ghost use Rattle.command_line.specs.Building.{Builds};
ghost use Rattle.command_line.specs.CommandLine.{aether_command, bare_command, demo_command, flag_rule, option_rule, required_rule, run_command, value_command};

use clap::{Arg, ArgAction, Command};
use std::alloc::{AllocError, Global};

/// A value that must be given, by its place.
fn required<'a>(alloc: Global, name: &'a str) -> Arg<'a>
    ensures rule { rule_of result ≡ required_rule name.entry.now }
    ensures local { result.global ≡ false }
{
    Arg::new(alloc, name).required(true)
}

/// An option with a value.
fn option<'a>(alloc: Global, name: &'a str) -> Arg<'a>
    ensures rule { rule_of result ≡ option_rule name.entry.now }
    ensures local { result.global ≡ false }
{
    Arg::new(alloc, name).long(name)
}

/// An option without one.
fn flag<'a>(alloc: Global, name: &'a str) -> Arg<'a>
    ensures rule { rule_of result ≡ flag_rule name.entry.now }
    ensures local { result.global ≡ false }
{
    Arg::new(alloc, name).long(name).action(ArgAction::SetTrue)
}

/// Adds an argument, where there was memory for the command.
fn and_arg<'a>(
    command: Result<Command<'a>, AllocError>,
    arg: Arg<'a>,
) -> Result<Command<'a>, AllocError>
    ensures { (app : App) (rule : Rule) → Builds command.entry app → rule_of arg.entry ≡ rule → arg.entry.global ≡ false
        → Builds result (with_rule app rule) }
{
    command?.arg(arg)
}

/// Adds a subcommand, where there was memory for it.
fn with_subcommand<'a>(
    command: Command<'a>,
    subcommand: Result<Command<'a>, AllocError>,
) -> Result<Command<'a>, AllocError>
    ensures { (sub : App) → Builds subcommand.entry sub → IfOk result (λ r. app_of r ≡ with_subcommand (app_of command.entry) sub.top) }
{
    command.subcommand(subcommand?)
}

/// Adds a subcommand, where there was memory for both.
fn and_subcommand<'a>(
    command: Result<Command<'a>, AllocError>,
    subcommand: Result<Command<'a>, AllocError>,
) -> Result<Command<'a>, AllocError>
    ensures { (app sub : App) → IfOk command.entry (λ c. app_of c ≡ app) → Builds subcommand.entry sub
        → IfOk result (λ r. app_of r ≡ with_subcommand app sub.top) }
{
    with_subcommand(command?, subcommand)
}

/// A command that is given one value.
fn on_value<'a>(alloc: Global, name: &'a str, value: &'a str) -> Result<Command<'a>, AllocError>
    ensures { Builds result (value_command name.entry.now value.entry.now) }
{
    and_arg(Ok(Command::new(alloc, name)), required(alloc, value))
}

fn run<'a>(alloc: Global) -> Result<Command<'a>, AllocError>
    ensures { Builds result run_command }
{
    let command = on_value(alloc, "run", "LOG");
    let command = and_arg(command, option(alloc, "workers"));
    let command = and_arg(command, option(alloc, "ring"));
    let command = and_arg(command, option(alloc, "slots"));
    and_arg(command, flag(alloc, "wait"))
}

fn demo<'a>(alloc: Global) -> Result<Command<'a>, AllocError>
    ensures { Builds result demo_command }
{
    let command = on_value(alloc, "demo", "LOG");
    let command = and_arg(command, required(alloc, "N"));
    let command = and_arg(command, required(alloc, "SEED"));
    let command = and_arg(command, option(alloc, "workers"));
    let command = and_arg(command, option(alloc, "ring"));
    and_arg(command, option(alloc, "slots"))
}

/// A command line that asks for help is a faulty one, so nothing here stands for help or for a version.
fn bare<'a>(alloc: Global) -> Command<'a>
    ensures { app_of result ≡ bare_command }
{
    Command::new(alloc, "aether")
        .subcommand_required(true)
        .disable_help_flag(true)
        .disable_help_subcommand(true)
        .disable_version_flag(true)
}

/// The whole command, with its subcommands.
pub(crate) fn aether<'a>(alloc: Global) -> Result<Command<'a>, AllocError>
    ensures { IfOk result (λ r. app_of r ≡ aether_command) }
{
    let command = and_subcommand(Ok(bare(alloc)), on_value(alloc, "new", "LOG"));
    let command = and_subcommand(command, run(alloc));
    let command = and_subcommand(command, Ok(Command::new(alloc, "recover")));
    let command = and_subcommand(command, Ok(Command::new(alloc, "dump")));
    let command = and_subcommand(command, demo(alloc));
    let command = and_subcommand(command, on_value(alloc, "cut", "LOG"));
    let command = and_subcommand(command, on_value(alloc, "upgrade", "LOG"));
    let command = and_subcommand(command, on_value(alloc, "ship", "FROM"));
    let command = and_subcommand(command, on_value(alloc, "follow", "LOG"));
    let command = and_subcommand(command, on_value(alloc, "asof", "LSN"));
    and_subcommand(command, on_value(alloc, "statement", "ACCOUNT"))
}
