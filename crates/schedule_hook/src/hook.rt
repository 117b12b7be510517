//! The hook, and the places at which a worker passes it.

/// Where a worker has come to.
#[derive(Clone, Copy, Debug, PartialEq, Eq)]
pub enum Place {
    /// It took a job.
    JobTaken,
    /// It took an account.
    Locked,
    /// It looked at the tail and at durable.
    Looked,
    /// Another worker was faster at the tail, or holds the account that it asked for.
    Lost,
    /// It reserved a range of the log.
    Placed,
    /// It joined a group.
    Joined,
    /// It told its group where it was placed, or why it was refused.
    Published,
    /// Its record is copied into the ring.
    Filled,
    /// It marked its range as released.
    Marked,
    /// It raised exposed past the released ranges that it had come to.
    Exposed,
    /// It gave back the last account of a job.
    JobEnded,
}

/// A hook that a worker passes at each place, with its number.
pub trait Gate {
    fn at(&self, worker: u32, place: Place);
}

/// The hook that does nothing.
pub struct OpenGate;

impl Gate for OpenGate {
    fn at(&self, _worker: u32, _place: Place) {}
}
