//! The statement of an account as text.
ghost use Rattle.std.specs.Prelude.{◌≡◌, ◌≤◌, ◌+◌, ◌++◌, length, OnOk, OnErr};
ghost use Rattle.std.specs.Io.KnownBytes.{Appends};
ghost use Rattle.log_disk.specs.Faults.{HasCause};
ghost use Rattle.log_disk.specs.Streams.{AppendsPart};
ghost use Rattle.cli_view.specs.Reports.{entry_line, open_line, statement_lines};

use ledger_view::{Entries, Entry};
use log_disk::{OutputBlock, Sink, WriteFault};
use log_recovery::{Line, put_end};
use lsn_space::Lsn;

#[tactic(auto, unfolding(crate::specs::Reports::open_line))]
fn first_line(balance: u64, line: &mut Line)
    ensures { line.new ≡ open_line balance }
{
    line.clear();
    line.put_byte(b'\n');
    line.put_balance(balance);
    line.put_piece(b"open ");
}

#[tactic(auto, unfolding(crate::specs::Reports::entry_line))]
fn line_of(entry: &Entry, line: &mut Line)
    ensures { line.new ≡ entry_line entry.now }
{
    line.clear();
    line.put_byte(b'\n');
    line.put_balance(entry.balance);
    line.put_byte(b' ');
    line.put_signed(entry.net);
    line.put_byte(b' ');
    line.put_number(entry.txn);
    line.put_byte(b' ');
    line.put_number(entry.end.units());
}

/// Writes the statement of an account that begins with this balance, of a list that ends here, or a part of it at a fault.
pub fn put_statement<K: Sink>(
    balance: u64,
    entries: &Entries,
    end: Lsn,
    sink: &mut K,
) -> Result<(), WriteFault>
    ensures all { OnOk result (Appends (K.held_bytes sink.old) (K.held_bytes sink.new)
        (statement_lines balance entries.now end)) }
    ensures prefix { OnErr result (AppendsPart (K.held_bytes sink.old) (K.held_bytes sink.new)
        (statement_lines balance entries.now end)) }
    ensures cause { HasCause (K.faults sink.old) (K.faults sink.new) result }
{
    let mut block = OutputBlock::new();
    let mut line = Line::new();
    first_line(balance, &mut line);
    block.put(sink, line.as_slice())?;
    let count = entries.count();
    'entries: for i in 0..count {
        line_of(&entries.at(i), &mut line);
        block.put(sink, line.as_slice())?;
    }
    put_end(end, &mut block, sink)?;
    block.write_out(sink)
}
