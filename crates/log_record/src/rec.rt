//! The records themselves.

use crate::text::Text;
use lsn_space::Lsn;

/// A record of the log.
#[derive(Debug, PartialEq, Eq, Drop)]
pub enum Rec {
    /// The account exists from here on, with this balance. Genesis records begin a log of the first format.
    Genesis {
        account: u32,
        balance: u64,
    },

    /// The transaction changes the account by this delta, once it commits. `prev` is the end of the
    /// account's last commit, 0 where it has none.
    Update {
        txn: u32,
        account: u32,
        delta: i32,
        prev: Lsn,
    },

    /// The transaction is done: all of its legs, of which there are this many, count.
    Commit {
        txn: u32,
        legs: u32,
    },

    /// The transaction ends without effect: at this leg, from 1, the payer had too little.
    Short {
        txn: u32,
        leg: u32,
    },

    /// The transaction ends without effect: at this leg, from 1, the payee would have had too much.
    Over {
        txn: u32,
        leg: u32,
    },

    /// A remark of the transaction.
    Note {
        txn: u32,
        text: Text,
    },
}

/// A record in its place in the log: it ends right before this LSN.
#[derive(Debug, PartialEq, Eq, Drop)]
pub struct Placed {
    pub end: Lsn,
    pub rec: Rec,
}

/// The units begin with no record.
#[derive(Clone, Copy, Debug, PartialEq, Eq)]
pub struct BadRec;
