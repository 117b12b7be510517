//! How a part is taken: the head, a frame or the end by its count, and the units of a frame.

ghost use Rattle.std.specs.Prelude.{◌≡◌, ◌↔◌, ◌≤◌, ◌+◌, [], IsTrue};
ghost use Rattle.lsn_space.specs.declared.lsn.TheConstants.{LAST};
ghost use Rattle.ship_stream.specs.declared.layout.TheConstants.{MOST_FRAME_UNITS};
ghost use Rattle.stream_reader.specs.Advance.{CanRead, Takes};
ghost use Rattle.stream_reader.specs.declared.reader.Stage.TheVariants.{Head, Count, Units, End};

use crate::numbers::{count_in, head_lsn};
use crate::reader::{BadStream, Part, Stage, StreamReader};
use crate::records::is_whole;
use crate::units::push_bytes;
use lsn_space::{LAST, Lsn};
use ship_stream::{COUNT_BYTES, HEAD_BYTES, MOST_FRAME_UNITS};

impl StreamReader {
    /// Takes bytes of the head.
    pub(crate) fn take_head(&mut self, piece: &[u8]) -> Result<(usize, Part), BadStream>
        requires stage { self.old.stage ≡ Head }
        requires read { CanRead self.old }
        ensures { Takes self.old self.new piece.now result }
    {
        let used = self.begun.fill(piece, HEAD_BYTES);
        if self.begun.count() < HEAD_BYTES {
            return Ok((used, Part::More));
        }
        let Some(first) = head_lsn(self.begun.as_slice()) else {
            return Err(BadStream { offset: 0 });
        };
        self.begun.clear();
        self.stage = Stage::Count;
        self.at = HEAD_BYTES as u64;
        self.next = first;
        Ok((used, Part::Head { first }))
    }

    /// Takes bytes of a frame's count, or of the end, and then of the frame's units.
    pub(crate) fn take_count(&mut self, piece: &[u8]) -> Result<(usize, Part), BadStream>
        requires stage { self.old.stage ≡ Count }
        requires read { CanRead self.old }
        ensures { Takes self.old self.new piece.now result }
    {
        let used = self.begun.fill(piece, COUNT_BYTES);
        let Some(count) = count_in(self.begun.as_slice()) else {
            return Ok((used, Part::More));
        };
        if count == 0 {
            self.stage = Stage::End;
            return Ok((used, Part::End));
        }
        if !self.has_room(count) {
            return Err(BadStream { offset: self.at });
        }
        self.begin_frame(count);
        let (more, part) = self.take_units(count, piece.split_at(used).1)?;
        Ok((used + more, part))
    }

    /// Whether a frame may have so many units here.
    fn has_room(&self, count: u32) -> bool
        ensures { IsTrue result ↔ ((count ≤ MOST_FRAME_UNITS) × (self.now.next + count ≤ LAST)) }
    {
        let next = self.next;
        count <= MOST_FRAME_UNITS && count <= LAST - next.units()
    }

    /// Goes on to the units of a frame that has so many.
    fn begin_frame(&mut self, count: u32)
        ensures stage { self.new.stage ≡ Units count }
        ensures empty { (self.new.batch.units ≡ []) × (self.new.begun ≡ []) }
        ensures rest { (self.new.at ≡ self.old.at) × (self.new.next ≡ self.old.next) × (self.new.batch.room ≡ self.old.batch.room) }
    {
        self.begun.clear();
        self.batch.clear();
        self.stage = Stage::Units { count };
    }

    /// Takes bytes of the units of a frame that has so many.
    pub(crate) fn take_units(
        &mut self,
        count: u32,
        piece: &[u8],
    ) -> Result<(usize, Part), BadStream>
        requires stage { self.old.stage ≡ Units count }
        requires read { CanRead self.old }
        ensures { Takes self.old self.new piece.now result }
    {
        let used = push_bytes(&mut self.batch, &mut self.begun, count, piece);
        if self.batch.count() < count {
            return Ok((used, Part::More));
        }
        if !is_whole(&self.batch) {
            return Err(BadStream { offset: self.at });
        }
        let next = self.next;
        self.next = Lsn::new(next.units() + count);
        self.at += COUNT_BYTES as u64 + 8 * count as u64;
        self.stage = Stage::Count;
        Ok((used, Part::Frame))
    }

    /// Takes nothing: behind the end nothing may follow.
    pub(crate) fn take_nothing(&self, piece: &[u8]) -> Result<(usize, Part), BadStream>
        requires stage { self.now.stage ≡ End }
        requires read { CanRead self.now }
        ensures { Takes self.now self.now piece.now result }
    {
        if piece.is_empty() {
            return Ok((0, Part::More));
        }
        Err(BadStream {
            offset: self.at + COUNT_BYTES as u64,
        })
    }
}
