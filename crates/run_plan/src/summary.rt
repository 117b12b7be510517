//! The six lines that `demo` prints.
ghost use Rattle.std.specs.Prelude.{◌≡◌, ◌≤◌, ◌+◌, ◌-◌, ◌*◌, ◌++◌, codes, length, OnOk, OnErr};
ghost use Rattle.std.specs.Io.KnownBytes.{Appends};
ghost use Rattle.log_disk.specs.Faults.{HasCause};
ghost use Rattle.log_disk.specs.Streams.{AppendsPart};
ghost use Rattle.lock_core.specs.Sums.{sum_below};
ghost use Rattle.lsn_space.specs.declared.opening.TheConstants.{MOST_ACCOUNTS};
ghost use Rattle.run_plan.specs.declared.summary.TheConstants.{TEXT_ROOM};
ghost use Rattle.run_plan.specs.Summary.{balance_in, count_line, mix_below, summary_of};

use arrayvec::ArrayVec;
use itoa::Buffer;
use log_disk::{Sink, WriteFault, put_all};
use lsn_space::{Balances, Lsn, decimal};

/// Room for six lines of a word and a number, two of which are sums and may have 20 digits more.
const TEXT_ROOM: usize = 232;

type Text = ArrayVec<u8, TEXT_ROOM>;

/// What is told of a run besides its accounts.
#[derive(Clone, Copy, Debug)]
pub struct Counts {
    pub transfers: u64,
    pub done: u64,
    pub refused: u64,

    /// The end of the log.
    pub lsn: Lsn,
}

/// Writes the summary of a run that left these accounts, or a part of it at a fault.
pub fn put_summary<K: Sink>(
    counts: Counts,
    accounts: &Balances,
    sink: &mut K,
) -> Result<(), WriteFault>
    requires { length accounts.now.rows ≤ MOST_ACCOUNTS }
    ensures all { OnOk result (Appends (K.held_bytes sink.old) (K.held_bytes sink.new) (summary_of counts accounts.now.rows)) }
    ensures prefix { OnErr result (AppendsPart (K.held_bytes sink.old) (K.held_bytes sink.new) (summary_of counts accounts.now.rows)) }
    ensures cause { HasCause (K.faults sink.old) (K.faults sink.new) result }
{
    put_all(sink, text_of(counts, accounts).as_slice())
}

/// The six lines.
fn text_of(counts: Counts, accounts: &Balances) -> Text
    requires { length accounts.now.rows ≤ MOST_ACCOUNTS }
    ensures { result.items ≡ summary_of counts accounts.now.rows }
{
    let mut text = Text::new();
    push_count(&mut text, b"transfers", counts.transfers);
    push_count(&mut text, b"done", counts.done);
    push_count(&mut text, b"refused", counts.refused);
    push_count(&mut text, b"lsn", counts.lsn.units() as u64);
    push_sum(&mut text, b"total", total_of(accounts));
    push_sum(&mut text, b"mix", mix_of(accounts));
    text
}

/// Appends the line of a word and a number.
#[tactic(auto, unfolding(crate::specs::Summary::count_line))]
fn push_count(text: &mut Text, word: &[u8], number: u64)
    requires word { length word.now ≤ 9 }
    requires room { length text.old.items ≤ TEXT_ROOM - 31 }
    ensures line { text.new.items ≡ text.old.items ++ count_line word.now number }
    ensures short { length text.new.items ≤ length text.old.items + 31 }
{
    push_line(text, word, decimal(number).as_slice());
}

/// Appends the line of a word and a sum.
#[tactic(auto, unfolding(crate::specs::Summary::count_line))]
fn push_sum(text: &mut Text, word: &[u8], sum: u128)
    requires word { length word.now ≤ 9 }
    requires room { length text.old.items ≤ TEXT_ROOM - 50 }
    ensures line { text.new.items ≡ text.old.items ++ count_line word.now sum }
    ensures short { length text.new.items ≤ length text.old.items + 50 }
{
    let mut buffer = Buffer::new();
    push_line(text, word, buffer.format(sum).as_bytes());
}

/// Appends a word, digits and the end of the line.
fn push_line(text: &mut Text, word: &[u8], digits: &[u8])
    requires { length text.old.items + length word.now + length digits.now + 2 ≤ TEXT_ROOM }
    ensures { text.new.items ≡ text.old.items ++ word.now ++ codes " " ++ digits.now ++ codes "\n" }
{
    text.try_extend_from_slice(word).unwrap();
    text.push(b' ');
    text.try_extend_from_slice(digits).unwrap();
    text.push(b'\n');
}

/// The sum of all balances.
fn total_of(accounts: &Balances) -> u128
    requires { length accounts.now.rows ≤ MOST_ACCOUNTS }
    ensures { result ≡ sum_below (length accounts.now.rows) (balance_in accounts.now.rows) }
{
    let mut total = 0u128;
    for account in 0..accounts.count() {
        let (balance, _) = accounts.at(account);
        total += balance as u128;
    }
    total
}

/// The sum over all accounts of the account's number and 1, times its balance.
fn mix_of(accounts: &Balances) -> u128
    requires { length accounts.now.rows ≤ MOST_ACCOUNTS }
    ensures { result ≡ mix_below (length accounts.now.rows) (balance_in accounts.now.rows) }
{
    let mut mix = 0u128;
    for account in 0..accounts.count() {
        let (balance, _) = accounts.at(account);
        mix += (account as u128 + 1) * balance as u128;
    }
    mix
}
