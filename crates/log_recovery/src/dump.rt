//! The dump of a list of records: a line for each with the place where it starts, and the end.

ghost use Rattle.std.specs.Prelude.{◌≡◌, ◌+◌, ◌≤◌, ◌++◌, List, length, drop, codes, OnOk, OnErr};
ghost use Rattle.std.specs.Io.KnownBytes.{Appends};
ghost use Rattle.log_disk.specs.Faults.{HasCause};
ghost use Rattle.log_disk.specs.Streams.{AppendsPart};
ghost use Rattle.log_record.specs.Spelling.{spelling, BeginsWith};
ghost use Rattle.log_record.specs.declared.rec.Rec.{Rec};
ghost use Rattle.lsn_space.specs.Number.{number_text};
ghost use Rattle.log_recovery.specs.Dump.{dump_text, opening_lines, rec_text, record_line, row_line};
ghost use Rattle.log_recovery.specs.Dump.{row_lines, snapshot_line, two_numbers_text, update_text};
ghost use Rattle.log_disk.specs.Blocks.{PutsPiece};
ghost use Rattle.log_recovery.specs.Recovery.{HasRecords, list_of};

use crate::line::Line;
use crate::list_result::Listed;
use crate::texts::put_end;
use log_disk::{OutputBlock, Sink, WriteFault};
use log_record::{Rec, read};
use lsn_space::{Balances, Lsn, Opening};

/// Writes the dump of a list, or a part of it at a fault.
pub fn put_dump<K: Sink>(listed: &Listed, sink: &mut K) -> Result<(), WriteFault>
    requires { (records : List Rec) × HasRecords listed.now records }
    ensures all { (records : List Rec) → HasRecords listed.now records
        → OnOk result (Appends (K.held_bytes sink.old) (K.held_bytes sink.new) (dump_text (list_of listed.now records))) }
    ensures prefix { (records : List Rec) → HasRecords listed.now records
        → OnErr result (AppendsPart (K.held_bytes sink.old) (K.held_bytes sink.new) (dump_text (list_of listed.now records))) }
    ensures cause { HasCause (K.faults sink.old) (K.faults sink.new) result }
{
    let end = listed.tail.next;
    let mut block = OutputBlock::new();
    let mut line = Line::new();
    put_opening(&listed.opening, &mut line, &mut block, sink)?;
    let mut rest = listed.units.as_slice();
    'records: while !rest.is_empty() {
        let start = start_of(rest, end);
        let (rec, behind) = first_of(rest);
        put_record(start, &rec, &mut line, &mut block, sink)?;
        rest = behind;
    }
    put_end(end, &mut block, sink)?;
    block.write_out(sink)
}

/// Puts the lines of what stands before a list: none, where that is nothing.
fn put_opening<K: Sink>(
    opening: &Opening,
    line: &mut Line,
    block: &mut OutputBlock,
    sink: &mut K,
) -> Result<(), WriteFault>
    ensures { PutsPiece K.Sink (opening_lines opening.now) sink.old sink.new block.old block.new result }
{
    let count = opening.accounts.count();
    if count == 0 {
        return Ok(());
    }
    put_snapshot(opening.lsn, opening.txn, line, block, sink)?;
    put_rows(&opening.accounts, line, block, sink)
}

/// Puts a line for each account.
fn put_rows<K: Sink>(
    accounts: &Balances,
    line: &mut Line,
    block: &mut OutputBlock,
    sink: &mut K,
) -> Result<(), WriteFault>
    ensures { PutsPiece K.Sink (row_lines 0 accounts.now.rows) sink.old sink.new block.old block.new result }
{
    'accounts: for account in 0..accounts.count() {
        put_row(account, accounts.at(account), line, block, sink)?;
    }
    Ok(())
}

/// Puts the line of where a list begins, and of the greatest transaction number before it.
fn put_snapshot<K: Sink>(
    lsn: Lsn,
    txn: u32,
    line: &mut Line,
    block: &mut OutputBlock,
    sink: &mut K,
) -> Result<(), WriteFault>
    ensures { PutsPiece K.Sink (snapshot_line lsn txn) sink.old sink.new block.old block.new result }
{
    make_snapshot(lsn, txn, line);
    block.put(sink, line.as_slice())
}

/// Puts the line of an account, with its balance and its mark.
fn put_row<K: Sink>(
    account: u32,
    row: (u64, u32),
    line: &mut Line,
    block: &mut OutputBlock,
    sink: &mut K,
) -> Result<(), WriteFault>
    ensures { PutsPiece K.Sink (row_line account row) sink.old sink.new block.old block.new result }
{
    make_row(account, row, line);
    block.put(sink, line.as_slice())
}

/// The line of where a list begins, and the greatest transaction number before it.
#[tactic(auto, unfolding(crate::specs::Dump::snapshot_line))]
fn make_snapshot(lsn: Lsn, txn: u32, line: &mut Line)
    ensures { line.new ≡ snapshot_line lsn txn }
{
    line.clear();
    line.put_byte(b'\n');
    line.put_number(txn);
    line.put_byte(b' ');
    line.put_number(lsn.units());
    line.put_piece(b"snapshot ");
}

/// The line of an account, as a snapshot has it.
#[tactic(auto, unfolding(crate::specs::Dump::row_line))]
fn make_row(account: u32, row: (u64, u32), line: &mut Line)
    ensures { line.new ≡ row_line account row }
{
    let (balance, mark) = row;
    line.clear();
    line.put_byte(b'\n');
    line.put_number(mark);
    line.put_byte(b' ');
    line.put_balance(balance);
    line.put_byte(b' ');
    line.put_number(account);
    line.put_piece(b"account ");
}

/// The record that a rest of a list's units begins with, and the rest behind it.
fn first_of(rest: &[u64]) -> (Rec, &[u64])
    requires { ((rec : Rec) → BeginsWith rest.now rec → ⊥) → ⊥ }
    ensures rec { BeginsWith rest.now result.0 }
    ensures behind { result.1.now ≡ drop (length (spelling result.0)) rest.now }
{
    let Ok((rec, size)) = read(rest) else {
        unreachable!()
    };
    (rec, rest.split_at(size).1)
}

/// Where this rest of a list's units starts, if the list ends here.
fn start_of(rest: &[u64], end: Lsn) -> Lsn
    requires { length rest.now ≤ end }
    ensures { result + length rest.now ≡ end }
{
    let end = end.units();
    Lsn::new(end - rest.len() as u32)
}

/// Puts the line of a record that starts here. The place for the line is lent, and whatever it holds is dropped.
fn put_record<K: Sink>(
    start: Lsn,
    rec: &Rec,
    line: &mut Line,
    block: &mut OutputBlock,
    sink: &mut K,
) -> Result<(), WriteFault>
    ensures { PutsPiece K.Sink (record_line start rec.now) sink.old sink.new block.old block.new result }
{
    make_line(start, rec, line);
    block.put(sink, line.as_slice())
}

/// The line of a record that starts here.
#[tactic(auto, unfolding(crate::specs::Dump::record_line))]
fn make_line(start: Lsn, rec: &Rec, line: &mut Line)
    ensures { line.new ≡ record_line start rec.now }
{
    line.clear();
    line.put_byte(b'\n');
    put_words(rec, line);
    line.put_byte(b' ');
    line.put_number(start.units());
}

/// Puts what the line says of the record itself.
fn put_words(rec: &Rec, line: &mut Line)
    requires { length line.old ≤ 1 }
    ensures text { line.new ≡ rec_text rec.now ++ line.old }
    ensures short { length line.new ≤ 230 }
{
    match rec {
        Rec::Genesis { account, balance } => put_genesis(*account, *balance, line),
        Rec::Update {
            txn,
            account,
            delta,
            prev,
        } => put_update(*txn, *account, *delta, *prev, line),
        Rec::Commit { txn, legs } => put_pair(b"commit ", *txn, *legs, line),
        Rec::Short { txn, leg } => put_pair(b"short ", *txn, *leg, line),
        Rec::Over { txn, leg } => put_pair(b"over ", *txn, *leg, line),
        Rec::Note { txn, text } => put_note(*txn, text.as_slice(), line),
    }
}

fn put_genesis(account: u32, balance: u64, line: &mut Line)
    requires { length line.old ≤ 1 }
    ensures text { line.new ≡ (codes "genesis " ++ two_numbers_text account balance) ++ line.old }
    ensures short { length line.new ≤ 230 }
{
    line.put_balance(balance);
    line.put_byte(b' ');
    line.put_number(account);
    line.put_piece(b"genesis ");
}

/// Puts a word, with the space behind it, and two numbers.
fn put_pair(word: &[u8], first: u32, second: u32, line: &mut Line)
    requires word { length word.now ≤ 8 }
    requires room { length line.old ≤ 100 }
    ensures text { line.new ≡ word.now ++ number_text first ++ codes " " ++ number_text second ++ line.old }
    ensures short { length line.new ≤ length line.old + 29 }
{
    line.put_number(second);
    line.put_byte(b' ');
    line.put_number(first);
    line.put_piece(word);
}

#[tactic(auto, unfolding(crate::specs::Dump::update_text))]
fn put_update(txn: u32, account: u32, delta: i32, prev: Lsn, line: &mut Line)
    requires { length line.old ≤ 1 }
    ensures text { line.new ≡ update_text txn account delta prev ++ line.old }
    ensures short { length line.new ≤ 99 }
{
    line.put_number(prev.units());
    line.put_byte(b' ');
    line.put_signed(delta as i64);
    line.put_byte(b' ');
    put_pair(b"update ", txn, account, line);
}

fn put_note(txn: u32, text: &[u8], line: &mut Line)
    requires note { length text.now ≤ 200 }
    requires room { length line.old ≤ 1 }
    ensures text { line.new ≡ (codes "note " ++ number_text txn ++ codes " " ++ text.now) ++ line.old }
    ensures short { length line.new ≤ 230 }
{
    line.put_piece(text);
    line.put_byte(b' ');
    line.put_number(txn);
    line.put_piece(b"note ");
}
