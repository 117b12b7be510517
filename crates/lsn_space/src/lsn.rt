//! A log sequence number, and the limits of the log and of its buffer.
ghost use Rattle.std.specs.Prelude.{◌≡◌, ◌+◌, ◌%◌, ◌≤◌, ◌↔◌, IsSome, IfSome};
ghost use Rattle.lsn_space.specs.declared.lsn.TheConstants.{LAST, LEAST_RING, GREATEST_RING, MOST_SLOTS};
ghost use Rattle.lsn_space.specs.declared.numerals.TheConstants.{MOST_GENERATED};
ghost use Rattle.lsn_space.specs.declared.opening.TheConstants.{MOST_ACCOUNTS, MOST_AMOUNT, MOST_BALANCE};

use std::marker::Model;

/// The greatest LSN, so a log has at most this many units.
pub const LAST: u32 = u32::MAX;

/// The least length of the log buffer, a ring of units.
pub const LEAST_RING: u32 = 1024;

/// The greatest length of the log buffer.
pub const GREATEST_RING: u32 = 0x10_0000;

/// The most slots at which workers that meet at the tail may go on as one group.
pub const MOST_SLOTS: u32 = 16;

/// A law: the numbers that the definitions take from this crate are 4294967295, 1024, 1048576, 16, 100000, 4096, 2147483647 and 4611686018427387903.
pub fn format_numbers()
    ensures last { LAST ≡ 4294967295 }
    ensures least_ring { LEAST_RING ≡ 1024 }
    ensures greatest_ring { GREATEST_RING ≡ 1048576 }
    ensures slots { MOST_SLOTS ≡ 16 }
    ensures transfers { MOST_GENERATED ≡ 100000 }
    ensures accounts { MOST_ACCOUNTS ≡ 4096 }
    ensures amount { MOST_AMOUNT ≡ 2147483647 }
    ensures balance { MOST_BALANCE ≡ 4611686018427387903 }
{}

/// A log sequence number: the address of a unit in the log, counted in units of eight bytes.
#[derive(Clone, Copy, Debug, PartialEq, Eq, PartialOrd, Ord, Hash)]
pub struct Lsn(u32);

impl Model for Lsn {
    ghost use Rattle.std.specs.Prelude.{ℕ};

    ghost Value = { ℕ };

    ghost view = { λ lsn. lsn.0 };

    ghost inverse = { λ n. record { 0 = n } };
}

impl Lsn {
    /// The address with so many units before it.
    pub fn new(units: u32) -> Lsn
        ensures { result ≡ units }
    {
        Lsn(units)
    }

    /// The units before this address.
    pub fn units(self) -> u32
        ensures { result ≡ self }
    {
        self.0
    }

    /// The address `n` units on, or `None` where it would pass `LAST`.
    pub fn plus(self, n: u32) -> Option<Lsn>
        ensures fits { IsSome result ↔ (self + n ≤ LAST) }
        ensures sum { IfSome result (λ end. end ≡ self + n) }
    {
        Some(Lsn(self.0.checked_add(n)?))
    }
}

/// The index of an address in a ring of so many units.
pub fn place(lsn: Lsn, ring: u32) -> usize
    requires { 1 ≤ ring }
    ensures { result ≡ lsn % ring }
{
    (lsn.0 % ring) as usize
}
