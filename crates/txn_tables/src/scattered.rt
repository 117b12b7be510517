//! The nodes of transactions whose numbers may lie anywhere, and the search for one of them.

ghost use Rattle.std.specs.Prelude.{◌≡◌, ◌≢◌, ◌<◌, ◌≤◌, ◌+◌, ◌^◌, ◌-◌, ℕ, None, length, slice_index_or, IfOk, OnOk, MatchOption};
ghost use Rattle.txn_tables.specs.Nodes.{no_node, LeadInside};
ghost use Rattle.txn_tables.specs.Roots.{root_of, BeginInside};

use crate::node::{Node, WAYS};
use crate::row::Row;
use lsn_space::NoMemory;
use std::alloc::Global;

/// How many roots there are: one for each value of a number's last 16 bits.
pub const ROOTS: u32 = 65536;

/// What is kept of transactions whose numbers may lie anywhere. Each has a node. The search for it begins at the root of the
/// number's last 16 bits, and goes on from each node of another transaction by the next bit, so that however the numbers are
/// chosen, it passes no more than 16 nodes of others.
#[derive(Drop)]
pub struct Scattered {
    /// At which node the search for a number with these last bits begins, 1 for the first of all, 0 where there is none.
    roots: Row,
    nodes: Vec<Node>,
    ghost inside: { LeadInside nodes.items },
    ghost begin: { BeginInside roots nodes.items },
}

/// Where a search ends, and what of the number's path is left there.
#[derive(Clone, Copy, Debug, PartialEq, Eq)]
pub struct End {
    pub at: usize,
    pub path: u32,
}

impl Scattered {
    ghost use Rattle.txn_tables.specs.Searches.{IsEnd, scattered_value, PutsScattered};

    pub fn new(alloc: Global) -> Scattered
        ensures { (txn : ℕ) → scattered_value result txn ≡ None }
    {
        Scattered {
            roots: Row::new(alloc),
            nodes: Vec::new(alloc),
        }
    }

    pub fn value(&self, txn: u32) -> Option<u32>
        ensures { result ≡ scattered_value self.now txn }
    {
        let Some(end) = self.search(txn) else {
            return None;
        };
        let node = &self.nodes[end.at];
        if node.txn == txn {
            Some(node.value)
        } else {
            None
        }
    }

    /// Goes to the transaction's node, or as far as a way leads; nowhere where there is no root.
    fn search(&self, txn: u32) -> Option<End>
        ensures { MatchOption result (root_of self.now.roots txn ≡ 0)
            (λ end. IsEnd self.now.nodes.items (root_of self.now.roots txn) txn end) }
    {
        let root = self.roots.at(txn % ROOTS) as usize;
        if root == 0 {
            return None;
        }
        let mut at = root - 1;
        let mut path = txn / ROOTS;
        'nodes: loop {
            let node = &self.nodes[at];
            let ahead = node.ahead(path);
            if node.txn == txn || ahead == 0 {
                return Some(End { at, path });
            }
            at += ahead as usize;
            path /= WAYS;
        }
    }

    /// Puts a value, and answers the one before it. The transaction is searched for once.
    pub fn put(&mut self, txn: u32, value: u32) -> Result<Option<u32>, NoMemory>
        ensures put { OnOk result (PutsScattered self.old self.new txn value) }
        ensures before { IfOk result (λ before. before ≡ scattered_value self.old txn) }
    {
        let Some(end) = self.search(txn) else {
            self.append_root(txn, value)?;
            return Ok(None);
        };
        let found = self.nodes[end.at];
        if found.txn == txn {
            self.nodes[end.at].value = value;
            return Ok(Some(found.value));
        }
        self.append(end, txn, value)?;
        Ok(None)
    }

    /// Appends the node of a transaction whose search begins nowhere, as its root.
    fn append_root(&mut self, txn: u32, value: u32) -> Result<(), NoMemory>
        requires { root_of self.old.roots txn ≡ 0 }
        ensures { OnOk result (PutsScattered self.old self.new txn value) }
    {
        let Ok(()) = self.nodes.push(Node::new(txn, value)) else {
            return Err(NoMemory);
        };
        let Ok(root) = u32::try_from(self.nodes.len()) else {
            return Err(NoMemory);
        };
        self.roots.put(txn % ROOTS, root)
    }

    /// Appends the node of a transaction that has none, and leads to it from where its search ends.
    fn append(&mut self, end: End, txn: u32, value: u32) -> Result<(), NoMemory>
        requires end { IsEnd self.old.nodes.items (root_of self.old.roots txn) txn end }
        requires other { (slice_index_or self.old.nodes.items end.at no_node).txn ≢ txn }
        ensures { OnOk result (PutsScattered self.old self.new txn value) }
    {
        let Some(places) = self.places_from(end.at) else {
            return Err(NoMemory);
        };
        let Ok(()) = self.nodes.push(Node::new(txn, value)) else {
            return Err(NoMemory);
        };
        self.nodes[end.at].link(end.path, places);
        Ok(())
    }

    /// How many places behind this one the next node is appended. There is such a number as long as it fits in 32 bits.
    fn places_from(&self, at: usize) -> Option<u32>
        requires { at < length self.now.nodes.items }
        ensures { MatchOption result (2 ^ 32 ≤ length self.now.nodes.items - at) (λ places. places ≡ length self.now.nodes.items - at) }
    {
        u32::try_from(self.nodes.len() - at).ok()
    }
}
