//! Laws of the definitions. The functions do nothing.

ghost use Rattle.std.specs.Prelude.{◌≡◌, ◌⊎◌, ◌+◌, ℕ, List};
ghost use Rattle.lsn_space.specs.declared.opening.TheConstants.{MOST_ACCOUNTS};
ghost use Rattle.command_line.specs.CommandLine.{AreKnown, AreTaken, IsCommandLine, NamesNumbers};
ghost use Rattle.command_line.specs.declared.command.Command.{Command};
ghost use Rattle.lsn_space.specs.declared.lsn.TheConstants.{MOST_SLOTS};
ghost use Rattle.command_line.specs.declared.options.TheConstants.{DEFAULT_RING, DEFAULT_SLOTS, DEFAULT_WORKERS, MOST_WORKERS};
ghost use Rattle.command_line.specs.declared.parsing.TheConstants.{GREATEST_ACCOUNT, GREATEST_SEED};

/// A law: words ask one thing at most. Those that the command takes ask something, unless they name a subcommand that
/// takes numbers.
pub fn one_command()
    ensures one { (words : List (List ℕ)) (one other : Command) → IsCommandLine words one → IsCommandLine words other → one ≡ other }
    ensures some { (words : List (List ℕ)) → AreKnown words → AreTaken words ⊎ NamesNumbers words }
{}

/// A law: of the numbers that the definitions take from the code, the greatest seed and the greatest account are 65536 and 4095, one
/// below the most accounts of a log; 16 workers and 16 slots are the most, and 2 workers, a ring of 65536 units and 4 slots the defaults.
pub fn format_numbers()
    ensures seed { GREATEST_SEED ≡ 65536 }
    ensures account { GREATEST_ACCOUNT ≡ 4095 }
    ensures accounts { GREATEST_ACCOUNT + 1 ≡ MOST_ACCOUNTS }
    ensures most { (MOST_WORKERS ≡ 16) × (MOST_SLOTS ≡ 16) }
    ensures defaults { (DEFAULT_WORKERS ≡ 2) × (DEFAULT_RING ≡ 65536) × (DEFAULT_SLOTS ≡ 4) }
{}
