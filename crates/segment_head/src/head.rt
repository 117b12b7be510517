//! The bytes of a head, as they go to the disk.
ghost use Rattle.std.specs.Prelude.{◌≡◌, ◌++◌, IfOk, OnOk};
ghost use Rattle.std.specs.List.{flat_map};
ghost use Rattle.lsn_space.specs.Opening.{Opening, IsSnapshot};
ghost use Rattle.segment_head.specs.declared.head.TheConstants.{FIRST_GATE, NEXT_GATE};
ghost use Rattle.segment_head.specs.Head.{row_bytes, sealed_head};

use lsn_space::{Balances, Lsn, NoMemory, Opening};
use std::alloc::Global;
use std::marker::Model;

/// The byte of an open gate, as it stands before a head.
pub const FIRST_GATE: u8 = 0x4f;

/// The byte of the gate behind a head, which is written closed.
pub const NEXT_GATE: u8 = 0;

/// The bytes of a head before its accounts: the magic bytes, where the list begins, the greatest transaction number and the
/// number of accounts.
const FRONT: usize = 19;

/// The bytes of an account.
const ROW: usize = 12;

/// The head of a file, as it goes to the disk in one piece. Contracts see what stands before the file's list.
#[derive(Drop)]
pub struct Head {
    /// Where the list begins.
    lsn: Lsn,

    /// The bytes of the head, and the next gate, closed.
    bytes: Vec<u8>,
}

impl Model for Head {
    ghost use Rattle.std.specs.Prelude.{drop};
    ghost use Rattle.lsn_space.specs.Opening.{Opening};
    ghost use Rattle.segment_head.specs.Head.{opening_in, IsHead};

    ghost Value = { Opening };

    ghost view = { λ h. opening_in (drop 7 h.bytes.items) };

    ghost invariant = { λ h. IsHead h.bytes.items (opening_in (drop 7 h.bytes.items)) h.lsn };
}

impl Head {
    /// A head with this opening.
    pub fn make(alloc: Global, opening: &Opening) -> Result<Head, NoMemory>
        requires { IsSnapshot opening.now }
        ensures { IfOk result (λ head. head ≡ opening.now) }
    {
        let bytes = sealed_bytes(alloc, opening)?;
        Ok(Head {
            lsn: opening.lsn,
            bytes,
        })
    }

    /// Where the list begins.
    pub fn lsn(&self) -> Lsn
        ensures { result ≡ self.now.lsn }
    {
        self.lsn
    }

    /// The bytes of the head, and the next gate, closed.
    pub fn sealed(&self) -> &[u8]
        ensures bytes { result.now ≡ sealed_head self.now }
        ensures held { IsSnapshot self.now }
    {
        self.bytes.as_slice()
    }
}

/// A law: the gates before and behind a head are 0x4F and 0.
pub fn format_numbers()
    ensures first { FIRST_GATE ≡ 79 }
    ensures next { NEXT_GATE ≡ 0 }
{}

/// The bytes of a head and of the next gate.
fn sealed_bytes(alloc: Global, opening: &Opening) -> Result<Vec<u8>, NoMemory>
    ensures { IfOk result (λ bytes. bytes.items ≡ sealed_head opening.now) }
{
    let count = opening.accounts.count();
    let Ok(mut bytes) = Vec::with_capacity(alloc, FRONT + ROW * count as usize + 1) else {
        return Err(NoMemory);
    };
    put(&mut bytes, b"AETHER2")?;
    put(&mut bytes, &opening.lsn.units().to_be_bytes())?;
    put(&mut bytes, &opening.txn.to_be_bytes())?;
    put(&mut bytes, &count.to_be_bytes())?;
    put_rows(&mut bytes, &opening.accounts)?;
    put(&mut bytes, &[NEXT_GATE])?;
    Ok(bytes)
}

/// Adds the bytes of each account.
fn put_rows(bytes: &mut Vec<u8>, accounts: &Balances) -> Result<(), NoMemory>
    ensures { OnOk result (bytes.new.items ≡ bytes.old.items ++ flat_map row_bytes accounts.now.rows) }
{
    'accounts: for account in 0..accounts.count() {
        let (balance, mark) = accounts.at(account);
        put_row(bytes, balance, mark)?;
    }
    Ok(())
}

/// Adds the bytes of an account.
fn put_row(bytes: &mut Vec<u8>, balance: u64, mark: u32) -> Result<(), NoMemory>
    ensures { OnOk result (bytes.new.items ≡ bytes.old.items ++ row_bytes (balance, mark)) }
{
    put(bytes, &balance.to_be_bytes())?;
    put(bytes, &mark.to_be_bytes())
}

/// Adds a piece.
fn put(bytes: &mut Vec<u8>, piece: &[u8]) -> Result<(), NoMemory>
    ensures { OnOk result (bytes.new.items ≡ bytes.old.items ++ piece.now) }
{
    match bytes.extend_from_slice(piece) {
        Ok(()) => Ok(()),
        Err(_) => Err(NoMemory),
    }
}
