//! Transfers that are made from a number, the same at each run.

ghost use Rattle.std.specs.Prelude.{◌≡◌, ◌<◌, ◌≤◌, ◌*◌, ℕ, List, [], length, All, IfOk};
ghost use Rattle.std.specs.List.{AllByRecursion};
ghost use Rattle.lsn_space.specs.declared.numerals.TheConstants.{MOST_GENERATED};
ghost use Rattle.log_record.specs.declared.rec.Rec.{Rec};
ghost use Rattle.log_record.specs.declared.rec.Placed.{Placed};
ghost use Rattle.log_record.specs.LogList.{end_of};
ghost use Rattle.lock_core.specs.AnyOrder.{HasRoomFor, IsDoneIn};
ghost use Rattle.lock_core.specs.History.{history_from};
ghost use Rattle.lock_core.specs.Serial.{numbered, IsSerialAfter};
ghost use Rattle.lock_core.specs.Sums.{BaseState, balance_of, sum_below};
ghost use Rattle.txn_script.specs.Generator.{number_after, leg_from, generated_balance, generated_jobs, generated_transfers, OpensGenerated};
ghost use Rattle.txn_script.specs.Script.{IsAllowedJob};

use crate::script::Script;
use lock_core::Leg;
use lsn_space::NoMemory;
use std::alloc::Global;

/// The accounts between which generated transfers go, from 0 on.
pub const GENERATED_ACCOUNTS: u32 = 64;

/// The balance with which each of them begins.
pub const GENERATED_BALANCE: u64 = 1_000_000;

/// So many transfers, generated from a seed.
pub fn make(alloc: Global, n: u32, seed: u32) -> Result<Script, NoMemory>
    ensures jobs { IfOk result (λ script. script ≡ generated_jobs n seed) }
{
    let mut script = Script::with_room(alloc, n)?;
    let mut x = seed;
    'jobs: for _ in 0..n {
        x = following(x);
        script.push_leg(leg_of(x))?;
    }
    Ok(script)
}

/// The number that follows this one.
fn following(x: u32) -> u32
    ensures { result ≡ number_after x }
{
    ((75 * x as u64 + 74) % 65537) as u32
}

/// The leg of the transfer that this number makes.
fn leg_of(x: u32) -> Leg
    ensures { result ≡ leg_from x }
{
    let payer = x % GENERATED_ACCOUNTS;
    let payee = (payer + 1 + x / GENERATED_ACCOUNTS % (GENERATED_ACCOUNTS - 1))
        % GENERATED_ACCOUNTS;
    let amount = 1 + x / 4096 % 9;
    Leg {
        payer,
        payee,
        amount,
    }
}

/// A law: generated transfers are as many as were asked for, and a log of `GENERATED_ACCOUNTS` accounts allows each.
pub fn generated_jobs_laws()
    ensures count { (n seed : ℕ) → length (generated_jobs n seed) ≡ n }
    ensures allowed { (n seed : ℕ) → All (IsAllowedJob GENERATED_ACCOUNTS) (generated_jobs n seed) }
{}

/// A law: at most `MOST_GENERATED` generated transfers on accounts of `GENERATED_BALANCE` are all done, whatever their order. What they
/// leave is told by their number and seed alone: each balance, and 5 units of the log for each of them. The balances keep their sum.
pub fn generated_in_any_order()
    ensures room { (n seed : ℕ) (base : BaseState) → n ≤ MOST_GENERATED → OpensGenerated base
        → HasRoomFor base (generated_transfers n seed) }
    ensures done { (n seed first : ℕ) (base : BaseState) (h : List Placed) → n ≤ MOST_GENERATED → OpensGenerated base
        → IsSerialAfter base (numbered first (generated_transfers n seed)) h
        → AllByRecursion (IsDoneIn h) (numbered first (generated_transfers n seed)) }
    ensures balance { (n seed first : ℕ) (base : BaseState) (h : List Placed) (account : ℕ) → n ≤ MOST_GENERATED
        → OpensGenerated base → IsSerialAfter base (numbered first (generated_transfers n seed)) h
        → account < GENERATED_ACCOUNTS → balance_of base h account ≡ generated_balance n seed account }
    ensures end { (n seed first : ℕ) (base : BaseState) (records : List Rec) → n ≤ MOST_GENERATED → OpensGenerated base
        → IsSerialAfter base (numbered first (generated_transfers n seed)) (history_from base.end [] records)
        → end_of records ≡ 5 * n }
    ensures sum { (n seed : ℕ) → n ≤ MOST_GENERATED
        → sum_below GENERATED_ACCOUNTS (generated_balance n seed) ≡ GENERATED_ACCOUNTS * GENERATED_BALANCE }
{}
