//! The first unit of a record: its four parts, and the kinds of records.

ghost use Rattle.std.specs.Prelude.{◌≡◌};
ghost use Rattle.log_record.specs.Spelling.{header};

/// The kind of a record: an account of a new log.
pub const GENESIS: u8 = 1;

/// The kind of a record: a change of an account.
pub const UPDATE: u8 = 2;

/// The kind of a record: the end of a transaction that is done.
pub const COMMIT: u8 = 3;

/// The kind of a record: the end of one whose payer has too little.
pub const SHORT: u8 = 4;

/// The kind of a record: the end of one whose payee would have too much.
pub const OVER: u8 = 5;

/// The kind of a record: the note of a transaction.
pub const NOTE: u8 = 6;

/// The first unit of a record, in its four parts.
#[derive(Clone, Copy, Debug, PartialEq, Eq)]
pub struct Header {
    /// One of the kinds above, where it is a record's.
    pub kind: u8,

    /// How many units the record has, this one included.
    pub units: u8,
    /// The account, the legs, the leg or the length of the text, as the kind says.
    pub field: u16,

    /// The transaction number, 0 of a Genesis.
    pub txn: u32,
}

impl Header {
    /// The parts of a unit.
    pub fn of(unit: u64) -> Header
        ensures { unit ≡ header result.kind result.units result.field result.txn }
    {
        Header {
            kind: (unit >> 56) as u8,
            units: (unit >> 48 & 0xff) as u8,
            field: (unit >> 32 & 0xffff) as u16,
            txn: (unit & 0xffff_ffff) as u32,
        }
    }

    /// The unit of these parts.
    pub fn unit(self) -> u64
        ensures { result ≡ header self.kind self.units self.field self.txn }
    {
        ((self.kind as u64) << 56)
            + ((self.units as u64) << 48)
            + ((self.field as u64) << 32)
            + self.txn as u64
    }
}
