//! What a seat knows of the table and has done in it. These types stand in contracts alone: no value
//! of them is ever made, so their numbers have no bound and their lists take no memory.
use crate::group_view::{After, HeardRefusal, MemberStep, Piece};
use lock_core::Job;
use log_record::Rec;
use std::collections::LinkedList;

/// A record and its range of the log: `size` units from `start` on, of which
/// `units` are copied into the ring so far.
pub struct Entry {
    pub start: u64,
    pub size: u64,
    pub units: LinkedList<u64>,
    pub rec: Rec,
}

/// The call that a seat has under way.
pub enum Call {
    Idle,
    /// A range is reserved for a record, which is being copied into the ring.
    Filling(Entry),
    /// The seat has joined the group at a slot, and not released its piece.
    Joined {
        slot: u64,
        piece: Piece,
        step: MemberStep,
    },
    /// It was the last at the slot to release, and has to mark the group's range.
    Emptying {
        slot: u64,
        base: u64,
        total: u64,
    },
    /// The seat's range or a group's was marked as released, and exposed was not looked at since.
    Marked(After),
    /// Exposed as it was found or written last, where the mark there was not looked at since.
    Holding {
        at: u64,
        after: After,
    },
    /// A mark was found at the one LSN, and exposed is to be raised from there to it.
    Raising {
        from: u64,
        to: u64,
        after: After,
    },
    /// Nothing is left to do but to open the slot again.
    Reopening(u64),
}

pub enum Role {
    /// The table's first seat, the only one that makes workers and merges.
    Flusher,
    /// A worker's seat that is not enrolled yet.
    Fresh,
    Active,
    Ended,
    /// Split off a seat to tell what that seat knows. It owns nothing.
    Note,
    /// What is left of a seat that was merged.
    Spent,
}

/// What was fixed when the table was made.
pub struct Constants {
    pub start: u64,
    pub ring: u64,
    pub slots: u64,
    pub accounts: u64,
}

/// The seat's role, its worker's number, and the numbers that it knows as made, enrolled and merged.
pub struct Standing {
    pub role: Role,
    pub worker: u64,
    pub made: LinkedList<u64>,
    pub enrolled: LinkedList<u64>,
    pub merged: LinkedList<u64>,
}

/// The last value seen in each word, and of the LSNs at which of the seat's steps; of the marks the last
/// one, and at which LSN it was found; of the accounts' words the last one, and whose it was; of the slots'
/// states the last one, and whose it was; of their bases the last one; every LSN seen
/// in tail, exposed, durable or a base; and each refusal of a group that the seat heard as its member.
pub struct Seen {
    pub steps: u64,
    pub tail: u64,
    pub tail_step: u64,
    pub exposed: u64,
    pub exposed_step: u64,
    pub durable: u64,
    pub durable_step: u64,
    pub stop: u64,
    pub crew: u64,
    pub mark: u64,
    pub mark_at: u64,
    pub account: u64,
    pub account_word: u64,
    pub slot: u64,
    pub slot_word: u64,
    pub base: u64,
    pub lsns: LinkedList<u64>,
    pub refusals: LinkedList<HeardRefusal>,
}

/// The flusher's work: the units sent to the disk and those read behind them, exposed as it loaded it
/// last, the stop word that it stored, whether it saw that nobody is at work any more, and whether it
/// loaded exposed since.
pub struct Sending {
    pub sent: LinkedList<u64>,
    pub read: LinkedList<u64>,
    pub exposed: u64,
    pub stop: u64,
    pub quiet: bool,
    pub looked: bool,
}

/// A job that a seat took, under its transaction number.
pub struct TakenJob {
    pub number: u64,
    pub job: Job,
}

/// An account that a seat holds, with the balance and the last commit's end as they were taken.
pub struct Taken {
    pub account: u64,
    pub balance: u64,
    pub last_commit: u64,
}

/// An account of which a seat has made the first step of a taking or of a giving, and not the second.
pub enum Half {
    /// There is none.
    Neither,
    /// Its word is taken, and its balance is loaded next.
    Taking { account: u64, last_commit: u64 },
    /// The balance with which it goes back is stored, and its word is stored next.
    Giving { taken: Taken, balance: u64 },
}

/// An account that a seat gave back: the number of the seat's last job then, the account with its balance
/// as it was taken, tail and durable as the seat had seen them then, and whether that job had its Commit
/// in the log.
pub struct Given {
    pub txn: u64,
    pub account: u64,
    pub balance: u64,
    pub tail: u64,
    pub durable: u64,
    pub committed: bool,
}

/// The jobs that the seat took, the accounts that it holds and those that it gave back, each newest
/// first until a merge; the account that it has half taken or half given back; the last job that it
/// took, of number 0 where it took none, and the records of that job in the log, newest first.
pub struct Books {
    pub jobs: LinkedList<TakenJob>,
    pub last: TakenJob,
    pub placed: LinkedList<log_record::Placed>,
    pub held: LinkedList<Taken>,
    pub half: Half,
    pub given: LinkedList<Given>,
}

pub struct View {
    pub constants: Constants,
    pub standing: Standing,
    pub seen: Seen,
    /// The seat's records in the log that are filled and released, in order.
    pub entries: LinkedList<Entry>,
    pub call: Call,
    /// Whether the seat, in a table with slots, has lost an exchange of the tail that it made alone, and has
    /// neither tried to join a group at its slot since nor seen that it can't.
    pub contended: bool,
    pub sending: Sending,
    pub books: Books,
}
