//! The judge beside the definition's plain program: on the same images they answer the same.

ghost use Rattle.std.specs.Prelude.{◌≤◌, length, IfOk};
ghost use Rattle.std.specs.List.{AllByRecursion};
ghost use Rattle.lsn_space.specs.declared.lsn.TheConstants.{LAST};
ghost use Rattle.log_record.specs.Spelling.{IsSpellable};

use lock_core::{PlainFault, plain_accounts};
use log_record::{Placed, read};
use log_recovery::{RecoverFault, recover};
use lsn_space::{Balances, Lsn};
use segment_file::{ScanFault, scan};
use std::alloc::Global;

fn scan_fault(fault: ScanFault) -> RecoverFault {
    match fault {
        ScanFault::NotALog => RecoverFault::NotALog,
        ScanFault::BadSnapshot => RecoverFault::BadSnapshot,
        ScanFault::BadBatch { offset } => RecoverFault::BadBatch { offset },
        ScanFault::NoMemory => RecoverFault::NoMemory,
    }
}

fn plain_fault(fault: PlainFault) -> RecoverFault {
    match fault {
        PlainFault::Unlawful { lsn, why } => RecoverFault::Unlawful { lsn, why },
        PlainFault::NoMemory => RecoverFault::NoMemory,
    }
}

/// The records that the units of a log spell, each with its end, in the order of the file.
fn entries_of(alloc: Global, units: &[u64]) -> Result<Vec<Placed>, RecoverFault>
    requires { length units.now ≤ LAST }
    ensures { IfOk result (λ entries. AllByRecursion (λ entry. IsSpellable entry.rec) entries.items) }
{
    let mut entries = Vec::new(alloc);
    let mut rest = units;
    'records: while !rest.is_empty() {
        let Ok((rec, size)) = read(rest) else {
            let lsn = Lsn::new((units.len() - rest.len()) as u32);
            return Err(RecoverFault::BadRec { lsn });
        };
        rest = rest.split_at(size).1;
        let end = Lsn::new((units.len() - rest.len()) as u32);
        let Ok(()) = entries.push(Placed { end, rec }) else {
            return Err(RecoverFault::NoMemory);
        };
    }
    Ok(entries)
}

/// What `recover` answers of the accounts of a file of the first format, by the definition's plain program.
fn plain_recover(alloc: Global, bytes: &[u8]) -> Result<Balances, RecoverFault> {
    let scan = match scan(alloc, bytes) {
        Ok(scan) => scan,
        Err(fault) => return Err(scan_fault(fault)),
    };
    let entries = entries_of(alloc, scan.units.as_slice())?;
    match plain_accounts(alloc, entries.as_slice()) {
        Ok(accounts) => Ok(accounts),
        Err(fault) => Err(plain_fault(fault)),
    }
}

/// Whether both have the same balances and last commits.
pub(crate) fn are_same(accounts: &Balances, others: &Balances) -> bool {
    if accounts.count() != others.count() {
        return false;
    }
    for account in 0..accounts.count() {
        if accounts.at(account) != others.at(account) {
            return false;
        }
    }
    true
}

/// Whether both answer the same of these bytes.
pub fn is_same(alloc: Global, bytes: &[u8]) -> bool {
    match (recover(alloc, bytes), plain_recover(alloc, bytes)) {
        (Ok(recovered), Ok(accounts)) => are_same(&recovered.accounts, &accounts),
        (Err(fault), Err(plain)) => fault == plain,
        _ => false,
    }
}
