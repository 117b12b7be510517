//! Batches of units that stand behind accounts 0 and 1, and these accounts with the greatest balance.

/// Accounts 0 and 1, of 2147483647, the most that a leg moves, and 0.
pub(crate) const RICH: [u64; 4] = [0x0102_0000_0000_0000, 2147483647, 0x0102_0001_0000_0000, 0];

/// The greatest balance, on account 0 and on account 1; the other has nothing.
pub(crate) const GREATEST: [u64; 4] = [
    0x0102_0000_0000_0000,
    0x3fff_ffff_ffff_ffff,
    0x0102_0001_0000_0000,
    0,
];

pub(crate) const GREATEST_SECOND: [u64; 4] = [
    0x0102_0000_0000_0000,
    0,
    0x0102_0001_0000_0000,
    0x3fff_ffff_ffff_ffff,
];

/// 30 and 20 from account 0 to account 1, by transaction 1.
pub(crate) const TWO_LEGS: [u64; 9] = [
    0x0202_0000_0000_0001,
    0xffff_ffe2_0000_0000,
    0x0202_0001_0000_0001,
    0x0000_001e_0000_0000,
    0x0202_0000_0000_0001,
    0xffff_ffec_0000_0000,
    0x0202_0001_0000_0001,
    0x0000_0014_0000_0000,
    0x0301_0002_0000_0001,
];

/// 30 from account 0 to account 1 and back, by transaction 1.
pub(crate) const NOTHING: [u64; 9] = [
    0x0202_0000_0000_0001,
    0xffff_ffe2_0000_0000,
    0x0202_0001_0000_0001,
    0x0000_001e_0000_0000,
    0x0202_0001_0000_0001,
    0xffff_ffe2_0000_0000,
    0x0202_0000_0000_0001,
    0x0000_001e_0000_0000,
    0x0301_0002_0000_0001,
];

/// 2147483647 from account 0 to account 1, by transaction 1.
pub(crate) const ALL: [u64; 5] = [
    0x0202_0000_0000_0001,
    0x8000_0001_0000_0000,
    0x0202_0001_0000_0001,
    0x7fff_ffff_0000_0000,
    0x0301_0001_0000_0001,
];

/// The same back, by transaction 2, where both were last changed at 9.
pub(crate) const ALL_BACK: [u64; 5] = [
    0x0202_0001_0000_0002,
    0x8000_0001_0000_0009,
    0x0202_0000_0000_0002,
    0x7fff_ffff_0000_0009,
    0x0301_0001_0000_0002,
];

/// 2147483647 four times from account 0 to account 1, and four times back, by transaction 1.
pub(crate) const EIGHT_LEGS: [u64; 33] = [
    0x0202_0000_0000_0001,
    0x8000_0001_0000_0000,
    0x0202_0001_0000_0001,
    0x7fff_ffff_0000_0000,
    0x0202_0000_0000_0001,
    0x8000_0001_0000_0000,
    0x0202_0001_0000_0001,
    0x7fff_ffff_0000_0000,
    0x0202_0000_0000_0001,
    0x8000_0001_0000_0000,
    0x0202_0001_0000_0001,
    0x7fff_ffff_0000_0000,
    0x0202_0000_0000_0001,
    0x8000_0001_0000_0000,
    0x0202_0001_0000_0001,
    0x7fff_ffff_0000_0000,
    0x0202_0001_0000_0001,
    0x8000_0001_0000_0000,
    0x0202_0000_0000_0001,
    0x7fff_ffff_0000_0000,
    0x0202_0001_0000_0001,
    0x8000_0001_0000_0000,
    0x0202_0000_0000_0001,
    0x7fff_ffff_0000_0000,
    0x0202_0001_0000_0001,
    0x8000_0001_0000_0000,
    0x0202_0000_0000_0001,
    0x7fff_ffff_0000_0000,
    0x0202_0001_0000_0001,
    0x8000_0001_0000_0000,
    0x0202_0000_0000_0001,
    0x7fff_ffff_0000_0000,
    0x0301_0008_0000_0001,
];

/// A transfer of which the second leg is refused.
pub(crate) const REFUSED: [u64; 5] = [
    0x0202_0000_0000_0001,
    0xffff_ffe2_0000_0000,
    0x0202_0001_0000_0001,
    0x0000_001e_0000_0000,
    0x0401_0002_0000_0001,
];

/// A transfer without an end record.
pub(crate) const UNFINISHED: [u64; 4] = [
    0x0202_0000_0000_0001,
    0xffff_ffe2_0000_0000,
    0x0202_0001_0000_0001,
    0x0000_001e_0000_0000,
];
