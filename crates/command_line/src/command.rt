//! The commands, and why words are refused.
use crate::options::RunOptions;
use lsn_space::Word;

/// What the words of the command line ask.
#[derive(Drop)]
pub enum Command {
    /// A log is made at this place.
    New {
        log: Word,
    },

    /// The transfers of the input are made over the log at this place.
    Run {
        log: Word,
        options: RunOptions,
    },

    /// The log of the input is read.
    Recover,

    /// The records of the input are shown.
    Dump,

    /// A log of generated accounts is made at this place, and so many transfers, which this seed generates, are made over it.
    Demo {
        log: Word,
        transfers: u32,
        seed: u32,
        options: RunOptions,
    },

    /// A log is made at this place, of what the log of the input leaves of its accounts.
    Cut {
        log: Word,
    },

    /// A log is made at this place, of the log of the input, with its Genesis records as what stands before the list.
    Upgrade {
        log: Word,
    },

    /// The records of the input's log are written as a stream, from this LSN on.
    Ship {
        from: u32,
    },

    /// The stream of the input is taken into the log at this place.
    Follow {
        log: Word,
    },

    /// The accounts are shown as they stood at this LSN of the input's log.
    AsOf {
        lsn: u32,
    },

    /// What the log of the input did to this account, from 0 to 4095, is shown.
    Statement {
        account: u32,
    },
}

/// Which subcommand words name.
#[derive(Clone, Copy, Debug, PartialEq, Eq)]
pub(crate) enum Subcommand {
    New,
    Run,
    Recover,
    Dump,
    Demo,
    Cut,
    Upgrade,
    Ship,
    Follow,
    AsOf,
    Statement,
}

/// Why words are refused; want of memory says nothing of them.
#[derive(Clone, Copy, Debug, PartialEq, Eq)]
pub enum RefusedWords {
    /// The command doesn't take them, or a number isn't written as it should be, or is outside its range.
    Usage,

    NoMemory,
}
