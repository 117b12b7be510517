//! The node of one transaction, and the ways that lead on from it.

ghost use Rattle.std.specs.Prelude.{◌≡◌, ℕ};
ghost use Rattle.txn_tables.specs.Nodes.{ahead, Links};

/// How many ways lead on from a node: one for each value of a bit.
pub const WAYS: u32 = 2;

/// The number of a transaction, what is kept of it, and how many places further on the next node of each way stands, 0 where
/// there is none.
#[derive(Clone, Copy, Debug, PartialEq, Eq)]
pub struct Node {
    pub txn: u32,
    pub value: u32,
    ways: [u32; WAYS as usize],
}

impl Node {
    /// A node from which no way leads on.
    pub fn new(txn: u32, value: u32) -> Node
        ensures txn { result.txn ≡ txn }
        ensures value { result.value ≡ value }
        ensures last { (path : ℕ) → ahead result path ≡ 0 }
    {
        Node {
            txn,
            value,
            ways: [0; WAYS as usize],
        }
    }

    /// How many places further on the search goes, with this path left.
    pub fn ahead(&self, path: u32) -> u32
        ensures { result ≡ ahead self.now path }
    {
        self.ways[(path % WAYS) as usize]
    }

    /// Has the search go so many places further on, with this path left.
    pub fn link(&mut self, path: u32, places: u32)
        ensures { Links self.old self.new path places }
    {
        self.ways[(path % WAYS) as usize] = places;
    }
}
