//! The accounts text: a line with the end of the list, and one for each account.

ghost use Rattle.std.specs.Prelude.{◌≡◌};
ghost use Rattle.log_disk.specs.Blocks.{PutsPiece};
ghost use Rattle.log_recovery.specs.WholeText.{Writes};
ghost use Rattle.log_recovery.specs.Text.{lsn_line, account_line, rows_text};

use arrayvec::ArrayVec;
use log_disk::{OutputBlock, Sink, WriteFault};
use lsn_space::{Balances, Lsn, decimal};

/// Room for a line of the accounts text: two numbers of at most 20 digits fit.
const LINE_ROOM: usize = 48;

/// A line of the accounts text.
type Line = ArrayVec<u8, LINE_ROOM>;

#[tactic(auto, unfolding(crate::specs::Text::lsn_line))]
fn end_line(lsn: Lsn) -> Line
    ensures { result.items ≡ lsn_line lsn }
{
    let mut line = ArrayVec::new();
    line.try_extend_from_slice(b"lsn ").unwrap();
    line.try_extend_from_slice(decimal(lsn.units() as u64).as_slice())
        .unwrap();
    line.push(b'\n');
    line
}

#[tactic(auto, unfolding(crate::specs::Text::account_line))]
fn balance_line(account: u32, balance: u64) -> Line
    ensures { result.items ≡ account_line account balance }
{
    let mut line = ArrayVec::new();
    line.try_extend_from_slice(decimal(account as u64).as_slice())
        .unwrap();
    line.push(b' ');
    line.try_extend_from_slice(decimal(balance).as_slice())
        .unwrap();
    line.push(b'\n');
    line
}

/// Puts the line with the end of a list.
pub fn put_end<K: Sink>(lsn: Lsn, block: &mut OutputBlock, sink: &mut K) -> Result<(), WriteFault>
    ensures { PutsPiece K.Sink (lsn_line lsn) sink.old sink.new block.old block.new result }
{
    block.put(sink, end_line(lsn).as_slice())
}

fn put_balance<K: Sink>(
    account: u32,
    balance: u64,
    block: &mut OutputBlock,
    sink: &mut K,
) -> Result<(), WriteFault>
    ensures { PutsPiece K.Sink (account_line account balance) sink.old sink.new block.old block.new result }
{
    block.put(sink, balance_line(account, balance).as_slice())
}

/// Writes the accounts text of a log that ends at this LSN, or a part of it at a fault.
pub fn put_accounts<K: Sink>(lsn: Lsn, accounts: &Balances, sink: &mut K) -> Result<(), WriteFault>
    ensures { Writes K.Sink (rows_text lsn accounts.now.rows) sink.old sink.new result }
{
    let mut block = OutputBlock::new();
    put_end(lsn, &mut block, sink)?;
    for account in 0..accounts.count() {
        let (balance, _) = accounts.at(account);
        put_balance(account, balance, &mut block, sink)?;
    }
    block.write_out(sink)
}
