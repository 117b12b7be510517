//! The line of an end record.
ghost use Rattle.std.specs.Prelude.{◌≡◌, ◌≤◌, ◌+◌, ◌++◌, ◌∷◌, [], length, codes, IfSome, IfNone};
ghost use Rattle.lsn_space.specs.Number.{number_text};
ghost use Rattle.end_lines.specs.EndLines.{done_line, short_line, over_line, end_line, is_done, is_refused};

use arrayvec::ArrayVec;
use log_record::Rec;
use lsn_space::{Lsn, decimal};

/// At least the length of the longest line: a word, three spaces, the LF, and three numbers of at most 20 digits.
const LINE_ROOM: usize = 72;

pub(crate) type Line = ArrayVec<u8, LINE_ROOM>;

/// The line of a record that ends at this LSN, where it ends a transaction.
pub(crate) fn line_of(rec: &Rec, end: Lsn) -> Option<Line>
    ensures some { IfSome result (λ line. (line.items ≡ end_line end rec.now) × (is_done rec.now + is_refused rec.now ≡ 1)) }
    ensures none { IfNone result ((end_line end rec.now ≡ []) × (is_done rec.now + is_refused rec.now ≡ 0)) }
{
    match rec {
        Rec::Commit { txn, legs: _ } => Some(done(*txn, end)),
        Rec::Short { txn, leg } => Some(short(*txn, *leg, end)),
        Rec::Over { txn, leg } => Some(over(*txn, *leg, end)),
        _ => None,
    }
}

#[tactic(auto, unfolding(crate::specs::EndLines::done_line))]
fn done(txn: u32, end: Lsn) -> Line
    ensures { result.items ≡ done_line txn end }
{
    let mut line = ArrayVec::new();
    line.try_extend_from_slice(b"done ").unwrap();
    put_number(txn, b' ', &mut line);
    put_number(end.units(), b'\n', &mut line);
    line
}

#[tactic(auto, unfolding(crate::specs::EndLines::short_line))]
fn short(txn: u32, leg: u32, end: Lsn) -> Line
    ensures { result.items ≡ short_line txn leg end }
{
    refused(b"short ", txn, leg, end)
}

#[tactic(auto, unfolding(crate::specs::EndLines::over_line))]
fn over(txn: u32, leg: u32, end: Lsn) -> Line
    ensures { result.items ≡ over_line txn leg end }
{
    refused(b"over ", txn, leg, end)
}

fn refused(word: &[u8], txn: u32, leg: u32, end: Lsn) -> Line
    requires { length word.now ≤ 6 }
    ensures { result.items ≡ word.now ++ number_text txn ++ codes " " ++ number_text leg ++ codes " " ++ number_text end ++ codes "\n" }
{
    let mut line = ArrayVec::new();
    line.try_extend_from_slice(word).unwrap();
    put_number(txn, b' ', &mut line);
    put_number(leg, b' ', &mut line);
    put_number(end.units(), b'\n', &mut line);
    line
}

/// Appends a number, and a byte behind it.
fn put_number(n: u32, behind: u8, line: &mut Line)
    requires { length line.old.items ≤ 50 }
    ensures text { line.new.items ≡ line.old.items ++ number_text n ++ behind ∷ [] }
    ensures short { length line.new.items ≤ length line.old.items + 21 }
{
    line.try_extend_from_slice(decimal(n as u64).as_slice())
        .unwrap();
    line.push(behind);
}
