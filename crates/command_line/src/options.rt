//! The options of `run` and `demo`.
ghost use Rattle.std.specs.Prelude.{◌≡◌, ◌≤◌, ◌↔◌, ℕ, Some, IsTrue, IfSome, IfNone, IfOk, IfErr, codes};
ghost use Rattle.clap.specs.Words.{found_of, rows_of, first_of};
ghost use Rattle.command_line.specs.CommandLine.{AreOptions, HasNoOptions, IsGiven, IsNumberOf};

use crate::command::RefusedWords;
use clap::ArgMatches;
use lsn_space::{GREATEST_RING, LEAST_RING, MOST_SLOTS, number};

/// The most workers that may be asked for.
pub const MOST_WORKERS: u32 = 16;

/// How many workers there are where no number is given.
pub const DEFAULT_WORKERS: u32 = 2;

/// The length of the ring in units where none is given.
pub const DEFAULT_RING: u32 = 65536;

/// How many slots there are where no number is given.
pub const DEFAULT_SLOTS: u32 = 4;

/// How `run` and `demo` are to work.
#[derive(Clone, Copy, Debug, PartialEq, Eq)]
pub struct RunOptions {
    /// How many workers there are, 1 to `MOST_WORKERS`.
    pub workers: u32,

    /// The length of the ring in units, a power of two from `LEAST_RING` to `GREATEST_RING`.
    pub ring: u32,

    /// How many slots there are, at most `MOST_SLOTS`, at which workers that meet at the tail may go on as one group. At 0 each goes alone.
    pub slots: u32,

    /// Whether a worker keeps a transfer's accounts until its end is durable, or it is cut off. `demo` has no such flag.
    pub wait: bool,
}

/// What is found of these options, where each number is written as it should be and in its range.
pub(crate) fn options_in(found: &ArgMatches<'_>) -> Option<RunOptions>
    ensures some { IfSome result (AreOptions (rows_of (found_of found.now))) }
    ensures none { IfNone result (HasNoOptions (rows_of (found_of found.now))) }
{
    let workers = number_in(found, "workers", DEFAULT_WORKERS, 1, MOST_WORKERS)?;
    let ring = number_in(found, "ring", DEFAULT_RING, LEAST_RING, GREATEST_RING)?;
    let slots = number_in(found, "slots", DEFAULT_SLOTS, 0, MOST_SLOTS)?;
    if !ring.is_power_of_two() {
        return None;
    }
    let wait = flag_in(found, "wait");
    Some(RunOptions {
        workers,
        ring,
        slots,
        wait,
    })
}

/// The number, from `least` to `most`, that an option gives, or its default where it isn't given.
fn number_in(
    found: &ArgMatches<'_>,
    option: &str,
    default: u32,
    least: u32,
    most: u32,
) -> Option<u32>
    requires { (least ≤ default) × (default ≤ most) }
    ensures least { IfSome result (λ n. least ≤ n) }
    ensures most { IfSome result (λ n. n ≤ most) }
    ensures some { IfSome result (IsNumberOf (first_of option.now (rows_of (found_of found.now))) default) }
    ensures none { IfNone result ((n : ℕ) → least ≤ n → n ≤ most
        → IsNumberOf (first_of option.now (rows_of (found_of found.now))) default n → ⊥) }
{
    match found.get_str(option) {
        Some(text) => {
            let n = number(text.as_bytes(), least as u64, most as u64)?;
            Some(n as u32)
        }
        None => Some(default),
    }
}

/// The number up to `most` that this argument gives.
pub(crate) fn given_in(
    found: &ArgMatches<'_>,
    argument: &str,
    most: u32,
) -> Result<u32, RefusedWords>
    ensures ok { IfOk result (IsGiven (rows_of (found_of found.now)) argument.now most) }
    ensures err { IfErr result (λ e. (e ≡ RefusedWords.Usage)
        × ((n : ℕ) → IsGiven (rows_of (found_of found.now)) argument.now most n → ⊥)) }
{
    let Some(text) = found.get_str(argument) else {
        return Err(RefusedWords::Usage);
    };
    match number(text.as_bytes(), 0, most as u64) {
        Some(n) => Ok(n as u32),
        None => Err(RefusedWords::Usage),
    }
}

/// Whether the flag is given.
fn flag_in(found: &ArgMatches<'_>, flag: &str) -> bool
    ensures { IsTrue result ↔ (first_of flag.now (rows_of (found_of found.now)) ≡ Some (codes "true")) }
{
    match found.get_str(flag) {
        Some(text) => text == "true",
        None => false,
    }
}
