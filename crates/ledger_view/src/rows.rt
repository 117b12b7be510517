//! The rows in which the entries of one account are kept.
ghost use Rattle.std.specs.Prelude.{◌≡◌, ◌<◌, ◌≤◌, ◌++◌, ◌∷◌, [], ℕ, length, slice_index_or, OnOk};
ghost use Rattle.std.specs.List.Sorted.{IsNonDecreasingBy};
ghost use Rattle.log_record.specs.Spelling.{IsBalance};

use lsn_space::{Lsn, NoMemory};
use std::alloc::Global;
use std::marker::Model;

/// An entry as it is kept, in 16 bytes: what it adds to the account is told by the balance of the row before it.
#[derive(Clone, Copy, Debug, PartialEq, Eq)]
pub struct Row {
    /// Where the Commit ends.
    pub end: Lsn,

    /// The transaction that it commits.
    pub txn: u32,

    /// The balance of the account behind the Commit.
    pub balance: u64,
    pub ghost fits: { IsBalance balance },
}

/// How many of the rows end at or below an LSN.
fn count_to(rows: &[Row], lsn: Lsn) -> usize
    requires { IsNonDecreasingBy (λ row. row.end) rows.now }
    ensures bound { result ≤ length rows.now }
    ensures below { (i : ℕ) (otherwise : Row) → i < result → (slice_index_or rows.now i otherwise).end ≤ lsn }
    ensures behind { (i : ℕ) (otherwise : Row) → result ≤ i → i < length rows.now → lsn < (slice_index_or rows.now i otherwise).end }
{
    rows.partition_point(|row| row.end.units() <= lsn.units())
}

/// How many of the marks lie at or below an LSN.
fn marks_to(marks: &[Lsn], lsn: Lsn) -> usize
    requires { IsNonDecreasingBy (λ mark. mark) marks.now }
    ensures bound { result ≤ length marks.now }
    ensures below { (i otherwise : ℕ) → i < result → slice_index_or marks.now i otherwise ≤ lsn }
    ensures behind { (i otherwise : ℕ) → result ≤ i → i < length marks.now → lsn < slice_index_or marks.now i otherwise }
{
    marks.partition_point(|mark| mark.units() <= lsn.units())
}

/// How many rows it is from one mark to the next.
pub const MARKED: usize = 16;

/// The rows of an account, in the order of their Commits. Contracts see the list of them.
#[derive(Debug, Drop)]
pub struct Rows {
    items: Vec<Row>,

    /// Where the first row ends, and each sixteenth behind it: they lie so close that a search for an LSN among them stays in the cache.
    marks: Vec<Lsn>,
}

impl Model for Rows {
    ghost use Rattle.std.specs.Prelude.{List};
    ghost use Rattle.ledger_view.specs.declared.rows.Row.{Row};
    ghost use Rattle.ledger_view.specs.Marks.{AreMarks};

    ghost Value = { List Row };

    ghost view = { λ rows. rows.items.items };

    ghost invariant = { λ rows. AreMarks rows.marks.items rows.items.items };
}

impl Rows {
    /// No row.
    pub fn new(alloc: Global) -> Rows
        ensures { result ≡ [] }
    {
        Rows {
            items: Vec::new(alloc),
            marks: Vec::new(alloc),
        }
    }

    /// Appends a row.
    pub fn push(&mut self, row: Row) -> Result<(), NoMemory>
        ensures { OnOk result (self.new ≡ self.old ++ row ∷ []) }
    {
        let end = row.end;
        let is_marked = self.items.len() % MARKED == 0;
        let Ok(()) = self.items.push(row) else {
            return Err(NoMemory);
        };
        if is_marked {
            let Ok(()) = self.marks.push(end) else {
                let _ = self.items.pop();
                return Err(NoMemory);
            };
        }
        Ok(())
    }

    /// How many of the rows end at or below an LSN.
    pub fn count_to(&self, lsn: Lsn) -> usize
        requires { IsNonDecreasingBy (λ row. row.end) self.now }
        ensures bound { result ≤ length self.now }
        ensures below { (i : ℕ) (otherwise : Row) → i < result → (slice_index_or self.now i otherwise).end ≤ lsn }
        ensures behind { (i : ℕ) (otherwise : Row) → result ≤ i → i < length self.now → lsn < (slice_index_or self.now i otherwise).end }
    {
        let marks = marks_to(self.marks.as_slice(), lsn);
        if marks == 0 {
            return 0;
        }
        let from = MARKED * (marks - 1);
        let rest = self.items.as_slice().split_at(from).1;
        from + count_to(rest.split_at(rest.len().min(MARKED)).0, lsn)
    }

    /// The number of rows.
    pub fn count(&self) -> usize
        ensures { result ≡ length self.now }
    {
        self.items.len()
    }

    /// The row at this place, from 0 on.
    pub fn at(&self, i: usize) -> Row
        requires { i < length self.now }
        ensures { (otherwise : Row) → result ≡ slice_index_or self.now i otherwise }
    {
        self.items[i]
    }
}
