//! The summary of the greatest accounts. The sums were reckoned apart from the program.
ghost use Rattle.std.specs.Prelude.{◌≡◌, length, IfOk};

use lsn_space::{Balances, Lsn, MOST_ACCOUNTS, MOST_BALANCE, NoMemory};
use memory_disk::MemorySink;
use run_plan::{Counts, put_summary};
use std::alloc::Global;
use std::test::Fail;

/// As many accounts as there may be, each of the greatest balance.
fn greatest_accounts(alloc: Global) -> Result<Balances, NoMemory>
    ensures { IfOk result (λ accounts. length accounts.rows ≡ MOST_ACCOUNTS) }
{
    let mut accounts = Balances::make(alloc, MOST_ACCOUNTS)?;
    'accounts: for _ in 0..MOST_ACCOUNTS {
        accounts.push(MOST_BALANCE, 0);
    }
    Ok(accounts)
}

const TEXT: &[u8] = b"transfers 10\ndone 7\nrefused 3\nlsn 4294967295\n\
    total 18889465931478580850688\nmix 38695070960633872872634368\n";

#[test]
fn sums_up_the_greatest_accounts(rt: HostRuntime) -> Result<(), Fail> {
    let accounts = greatest_accounts(rt.alloc())?;
    let Ok(mut out) = MemorySink::make(rt.alloc(), 300, &[]) else {
        return Err(Fail::new("no memory"));
    };
    let counts = Counts {
        transfers: 10,
        done: 7,
        refused: 3,
        lsn: Lsn::new(u32::MAX),
    };
    let written = put_summary(counts, &accounts, &mut out).is_ok();
    assert!(rt; written);
    assert_eq!(rt; out.bytes(), TEXT);
    Ok(())
}
