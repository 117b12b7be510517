//! Batches of units that stand behind accounts 0 and 1, and these accounts with the greatest balance.

use std::alloc::{AllocError, Global};

/// Accounts 0 and 1, of 2147483647, the most that a leg moves, and 0.
pub(crate) const RICH: [u64; 4] = [0x0102_0000_0000_0000, 2147483647, 0x0102_0001_0000_0000, 0];

/// Accounts 0 and 1, of the greatest balance and 0.
pub(crate) const GREATEST: [u64; 4] = [
    0x0102_0000_0000_0000,
    0x3fff_ffff_ffff_ffff,
    0x0102_0001_0000_0000,
    0,
];

/// 30 from account 0 to account 1, without an end.
pub(crate) const UNFINISHED: [u64; 4] = [
    0x0202_0000_0000_0007,
    0xffff_ffe2_0000_0000,
    0x0202_0001_0000_0007,
    0x0000_001e_0000_0000,
];

/// A transfer that was refused: an account had too little at its first leg.
pub(crate) const SHORT: [u64; 1] = [0x0401_0001_0000_0001];

/// 30 and 20 from account 0 to account 1, in two legs.
pub(crate) const TWO_LEGS: [u64; 9] = [
    0x0202_0000_0000_0001,
    0xffff_ffe2_0000_0000,
    0x0202_0001_0000_0001,
    0x0000_001e_0000_0000,
    0x0202_0000_0000_0001,
    0xffff_ffec_0000_0000,
    0x0202_0001_0000_0001,
    0x0000_0014_0000_0000,
    0x0301_0002_0000_0001,
];

/// The greatest amount from account 0 to account 1.
pub(crate) const ALL_OF_IT: [u64; 5] = [
    0x0202_0000_0000_0001,
    0x8000_0001_0000_0000,
    0x0202_0001_0000_0001,
    0x7fff_ffff_0000_0000,
    0x0301_0001_0000_0001,
];

/// The same back, by transaction 2.
pub(crate) const ALL_BACK: [u64; 5] = [
    0x0202_0001_0000_0002,
    0x8000_0001_0000_0009,
    0x0202_0000_0000_0002,
    0x7fff_ffff_0000_0009,
    0x0301_0001_0000_0002,
];

/// The units of an update of transaction 1.
fn push_update(units: &mut Vec<u64>, account: u64, delta: u64) -> Result<(), AllocError> {
    units.push(0x0202_0000_0000_0001 | (account << 32))?;
    units.push(delta << 32)?;
    Ok(())
}

/// These accounts, and behind them eight legs of the greatest amount, four from account 0 to account 1, and four back.
pub(crate) fn to_and_fro(alloc: Global, accounts: &[u64]) -> Result<Vec<u64>, AllocError> {
    let mut units = Vec::new(alloc);
    for unit in accounts {
        units.push(*unit)?;
    }
    for (from, to) in [
        (0, 1),
        (0, 1),
        (0, 1),
        (0, 1),
        (1, 0),
        (1, 0),
        (1, 0),
        (1, 0),
    ] {
        push_update(&mut units, from, 0x8000_0001)?;
        push_update(&mut units, to, 0x7fff_ffff)?;
    }
    units.push(0x0301_0008_0000_0001)?;
    Ok(units)
}
