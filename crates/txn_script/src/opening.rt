//! The text of a new log's balances.
ghost use Rattle.std.specs.Prelude.{◌≡◌, ◌<◌, ◌+◌, ℕ, List, length, IfSome, IfNone, IfOk, IfErr};
ghost use Rattle.lsn_space.specs.declared.opening.TheConstants.{MOST_ACCOUNTS};
ghost use Rattle.log_record.specs.Spelling.{IsBalance};
ghost use Rattle.lsn_space.specs.Number.{number_text};
ghost use Rattle.txn_script.specs.Balances.{IsBalancesText, IsBalanceLine, IsFirstBadBalance, ReadsBalances, IsBalancesFault};
ghost use Rattle.txn_script.specs.declared.fault.ParseFault.TheVariants.{Line};

use crate::fault::ParseFault;
use crate::lines::take_line;
use lsn_space::{Balances, MOST_ACCOUNTS, MOST_BALANCE, number};
use std::alloc::Global;

/// The balances of a new log's accounts, from account 0 on: a line with a number for each. No account has a commit yet.
pub fn balances(alloc: Global, bytes: &[u8]) -> Result<Balances, ParseFault>
    ensures read { IfOk result (ReadsBalances bytes.now) }
    ensures fault { IfErr result (IsBalancesFault bytes.now) }
{
    let mut balances = Balances::make(alloc, MOST_ACCOUNTS)?;
    let mut rest = bytes;
    'lines: while let Some((line, after)) = take_line(rest) {
        let Some(balance) = next_balance(&balances, line) else {
            return Err(next_line(&balances));
        };
        balances.push(balance, 0);
        rest = after;
    }
    if balances.count() == 0 {
        return Err(ParseFault::Line { line: 1 });
    }
    Ok(balances)
}

/// The balance that a line adds, if there is room for one more account.
fn next_balance(balances: &Balances, line: &[u8]) -> Option<u64>
    ensures room { IfSome result (λ _. length balances.now.rows < MOST_ACCOUNTS) }
    ensures balance { IfSome result IsBalance }
    ensures text { IfSome result (λ n. line.now ≡ number_text n) }
    ensures none { IfNone result (length balances.now.rows < MOST_ACCOUNTS → IsBalanceLine line.now → ⊥) }
{
    if balances.count() < MOST_ACCOUNTS {
        number(line, 0, MOST_BALANCE)
    } else {
        None
    }
}

/// A law: no text has two lists of balances, two first lines outside, or one of each.
pub fn balances_one_reading()
    ensures balances { (bytes ms ns : List ℕ) → IsBalancesText bytes ms → IsBalancesText bytes ns → ms ≡ ns }
    ensures line { (bytes : List ℕ) (a b : ℕ) → IsFirstBadBalance bytes a → IsFirstBadBalance bytes b → a ≡ b }
    ensures apart { (bytes ns : List ℕ) (line : ℕ) → IsBalancesText bytes ns → IsFirstBadBalance bytes line → ⊥ }
{}

/// The line behind those that were read.
fn next_line(balances: &Balances) -> ParseFault
    ensures { result ≡ Line (length balances.now.rows + 1) }
{
    ParseFault::Line {
        line: balances.count() as u64 + 1,
    }
}
