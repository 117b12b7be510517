//! Why a record is not taken.

/// The tests of a record, in the order in which they are made.
#[derive(Clone, Copy, Debug, PartialEq, Eq)]
pub enum Why {
    /// Behind an opening with accounts no record is a Genesis. Behind none the first is that of account 0; a Genesis follows Genesis
    /// records alone and has the next account number.
    Genesis,

    /// The account of an Update has a Genesis, or is the opening's.
    Account,

    /// The transaction has no end record yet, and a greater number than the opening's.
    Ended,

    /// The transaction has as many Updates as the record allows or says.
    Legs,

    /// The Updates of a transaction come in pairs: one takes from an account, the next adds as much to
    /// another.
    Pair,

    /// An Update names the last Commit on its account.
    Prev,

    /// At the Commit, each Update of the transaction still names the last Commit on its account.
    Stale,

    /// With the Commit, every account's balance is in its range.
    Balance,
}

/// Why a judge doesn't take a record.
#[derive(Clone, Copy, Debug, PartialEq, Eq)]
pub enum JudgeFault {
    /// With the record the list isn't lawful, and this is the first test that the record fails.
    Why(Why),

    NoMemory,
}
