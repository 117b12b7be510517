//! What comes of the words of the command line: an answer, or a command that needs workers.
use cli_shared::Detail;
use command_line::RunOptions;
use lsn_space::Word;

/// What comes of the words where no workers are needed.
#[derive(Drop)]
pub enum Answer {
    /// All is done, and the program ends so.
    Done(Detail),

    /// Nothing is done yet: this is asked.
    Asked(WithWorkers),
}

/// A command that needs workers, as it is asked.
#[derive(Drop)]
pub enum WithWorkers {
    Run {
        log: Word,
        options: RunOptions,
    },
    Demo {
        log: Word,
        transfers: u32,
        seed: u32,
        options: RunOptions,
    },
}
