//! The reader, and what it answers.

ghost use Rattle.std.specs.Prelude.{◌↔◌, ◌≤◌, ◌++◌, [], ℕ, List, length, take, IsTrue, IfOk, IfErr, OnOk};
ghost use Rattle.ship_stream.specs.Came.{Came, HasCome, IsBadBehind, IsWhole};
ghost use Rattle.ship_stream.specs.Came.Came.{NoHead};
ghost use Rattle.stream_reader.specs.Advance.{Advances, TakesBytes};
ghost use Rattle.stream_reader.specs.Reader.{HasRead};

use crate::begun::Begun;
use lsn_space::{Lsn, NoMemory};
use segment_file::Batch;
use ship_stream::MOST_FRAME_UNITS;
use std::alloc::Global;

/// What is whole now.
#[derive(Clone, Copy, Debug, PartialEq, Eq)]
pub enum Part {
    /// Nothing more: the part under way isn't whole, and the piece is taken to its end.
    More,

    /// The head, which says at which LSN the first frame begins.
    Head { first: Lsn },

    /// A frame. Its units are in the batch until the reader takes more.
    Frame,

    /// The end.
    End,
}

/// The bytes are no stream: the part at this place is cut or outside the grammar. It is 0 for the head, else the place of a
/// frame's count, or of the first byte behind the end.
#[derive(Clone, Copy, Debug, PartialEq, Eq)]
pub struct BadStream {
    pub offset: u64,
}

/// Which part is under way.
#[derive(Clone, Copy, Debug, PartialEq, Eq)]
pub enum Stage {
    Head,
    Count,
    Units { count: u32 },
    End,
}

/// A reader of a stream. It has room for the longest frame, and takes no other memory however long the stream is.
#[derive(Drop)]
pub struct StreamReader {
    /// The units of the frame under way, or of the one that is whole now.
    pub batch: Batch,

    pub(crate) stage: Stage,

    /// The place of the part under way. A frame has 12 bytes at most for each of its units, so a place is below 2 ^ 36.
    pub(crate) at: u64,

    /// The LSN at which the frames end.
    pub(crate) next: Lsn,

    /// The bytes of the head, a count or a unit that isn't whole.
    pub(crate) begun: Begun,
}

impl StreamReader {
    /// A reader that has read nothing.
    pub fn make(alloc: Global) -> Result<StreamReader, NoMemory>
        ensures { IfOk result (λ reader. HasRead reader [] NoHead) }
    {
        let batch = Batch::make(alloc, MOST_FRAME_UNITS)?;
        Ok(StreamReader {
            batch,
            stage: Stage::Head,
            at: 0,
            next: Lsn::new(0),
            begun: Begun::new(),
        })
    }

    /// Takes a piece of the stream up to the end of the part under way at most, and answers how many bytes were taken, and
    /// what is whole now. After the end no byte may follow. After a fault the reader is spent.
    pub fn take(&mut self, piece: &[u8]) -> Result<(usize, Part), BadStream>
        requires { (past : List ℕ) × (came : Came) × HasRead self.old past came }
        ensures within { IfOk result (λ r. r.0 ≤ length piece.now) }
        ensures used { IfOk result (λ r. TakesBytes r.1 r.0 piece.now) }
        ensures part { (past : List ℕ) (came : Came) → HasRead self.old past came
            → IfOk result (λ r. Advances r.1 came self.new (past ++ take r.0 piece.now)) }
        ensures bad { (past : List ℕ) (came : Came) → HasRead self.old past came
            → IfErr result (λ e. (more : List ℕ) → IsBadBehind came (past ++ piece.now ++ more) e.offset) }
    {
        match self.stage {
            Stage::Head => self.take_head(piece),
            Stage::Count => self.take_count(piece),
            Stage::Units { count } => self.take_units(count, piece),
            Stage::End => self.take_nothing(piece),
        }
    }

    /// Whether the end has come.
    pub fn is_ended(&self) -> bool
        ensures { (past : List ℕ) (came : Came) → HasRead self.now past came → IsTrue result ↔ IsWhole came }
    {
        matches!(self.stage, Stage::End)
    }

    /// Makes sure that the stream is whole.
    pub fn finish(&self) -> Result<(), BadStream>
        ensures whole { (past : List ℕ) (came : Came) → HasRead self.now past came → OnOk result (IsWhole came) }
        ensures bad { (past : List ℕ) (came : Came) → HasRead self.now past came
            → IfErr result (λ e. IsBadBehind came past e.offset) }
    {
        match self.stage {
            Stage::End => Ok(()),
            _ => Err(BadStream { offset: self.at }),
        }
    }
}

/// A law: a reader has read as much as has come.
pub fn read_has_come()
    ensures { (reader : StreamReader) (past : List ℕ) (came : Came) → HasRead reader past came → HasCome past came }
{}
