//! The Updates that a judge keeps, each linked to the one before it of its transaction.

ghost use Rattle.std.specs.Prelude.{◌≡◌, ◌<◌, ◌≤◌, ◌++◌, ◌∷◌, [], List, length, take, IfOk, MatchOption};
ghost use Rattle.log_record.specs.Spelling.{IsAccount};
ghost use Rattle.lock_core.specs.declared.update.Change.{Change};
ghost use Rattle.lock_core.specs.declared.update.TheConstants.{MOST_UPDATES};
ghost use Rattle.lock_core.specs.declared.update_links.TheConstants.{ENDED};
ghost use Rattle.lock_core.specs.Unpacked.{unpacked};
ghost use Rattle.lock_core.specs.KeptLedger.{no_link, link_at, HasChain};

use crate::update::{Change, MOST_UPDATES};
use arrayvec::ArrayVec;
use lsn_space::{Lsn, NoMemory};
use std::alloc::Global;
use std::marker::Model;

/// What stands in the place of a transaction's newest Update once the transaction has its end record.
pub const ENDED: u32 = u32::MAX;

/// What an Update says, how many Updates its transaction has with it, and the place of the one before it, 0 where it is the
/// first.
#[derive(Clone, Copy, Debug, PartialEq, Eq)]
pub struct UpdateLink {
    pub change: Change,
    pub count: u32,
    pub older: u32,
}

/// An Update as it is kept, in 16 bytes.
#[derive(Clone, Copy, Debug, PartialEq, Eq)]
pub struct PackedLink {
    delta: i32,
    prev: Lsn,
    older: u32,
    account: u16,
    count: u16,
}

impl PackedLink {
    fn of(link: UpdateLink) -> PackedLink
        requires account { IsAccount link.change.account }
        requires count { link.count ≤ MOST_UPDATES }
        ensures { unpacked result ≡ link }
    {
        let UpdateLink {
            change,
            count,
            older,
        } = link;
        let Change {
            account,
            delta,
            prev,
        } = change;
        PackedLink {
            delta,
            prev,
            older,
            account: account as u16,
            count: count as u16,
        }
    }

    fn unpacked(self) -> UpdateLink
        ensures { result ≡ unpacked self }
    {
        UpdateLink {
            change: Change {
                account: u32::from(self.account),
                delta: self.delta,
                prev: self.prev,
            },
            count: u32::from(self.count),
            older: self.older,
        }
    }
}

/// The Updates of many transactions. At place 0 stands none, so that the first of a transaction needs no case of its own.
#[derive(Drop)]
pub struct UpdateLinks {
    links: Vec<PackedLink>,
}

impl Model for UpdateLinks {
    ghost use Rattle.std.specs.Prelude.{List, map};
    ghost use Rattle.lock_core.specs.declared.update_links.UpdateLink.{UpdateLink};
    ghost use Rattle.lock_core.specs.Unpacked.{unpacked};

    ghost Value = { List UpdateLink };

    ghost view = { λ u. map unpacked u.links.items };
}

impl UpdateLinks {
    pub fn make(alloc: Global) -> Result<UpdateLinks, NoMemory>
        ensures { IfOk result (λ links. links ≡ no_link ∷ []) }
    {
        let none = UpdateLink {
            change: Change {
                account: 0,
                delta: 0,
                prev: Lsn::new(0),
            },
            count: 0,
            older: 0,
        };
        let mut links = Vec::new(alloc);
        match links.push(PackedLink::of(none)) {
            Ok(()) => Ok(UpdateLinks { links }),
            Err(_) => Err(NoMemory),
        }
    }

    pub fn at(&self, place: u32) -> UpdateLink
        requires { place < length self.now }
        ensures { result ≡ link_at self.now place }
    {
        self.links[place as usize].unpacked()
    }

    /// The place of an Update that is appended. There is one as long as it isn't what stands for an ended transaction.
    fn next_place(&self) -> Option<u32>
        ensures { MatchOption result (ENDED ≤ length self.now) (λ place. (place ≡ length self.now) × (place < ENDED)) }
    {
        let place = self.links.len();
        if place < ENDED as usize {
            Some(place as u32)
        } else {
            None
        }
    }

    /// Appends an Update, and answers its place.
    pub fn push(&mut self, link: UpdateLink) -> Result<u32, NoMemory>
        requires account { IsAccount link.change.account }
        requires count { link.count ≤ MOST_UPDATES }
        ensures links { IfOk result (λ place. self.new ≡ self.old ++ link ∷ []) }
        ensures place { IfOk result (λ place. place ≡ length self.old) }
        ensures fits { IfOk result (λ place. place < ENDED) }
    {
        let Some(place) = self.next_place() else {
            return Err(NoMemory);
        };
        match self.links.push(PackedLink::of(link)) {
            Ok(()) => Ok(place),
            Err(_) => Err(NoMemory),
        }
    }

    /// Drops all Updates, and keeps place 0.
    pub fn clear(&mut self)
        ensures { self.new ≡ take 1 self.old }
    {
        self.links.truncate(1);
    }

    /// What the Updates of a transaction say, the newest of which stands at this place, newest first.
    /// The list is lent: what it held is lost.
    pub fn chain(&self, place: u32, changes: &mut ArrayVec<Change, MOST_UPDATES>)
        requires { (found : List Change) × HasChain self.now place found × (length found ≤ MOST_UPDATES) }
        ensures { HasChain self.now place changes.new.items }
    {
        changes.clear();
        let mut at = place;
        'links: while at != 0 {
            let link = self.at(at);
            changes.push(link.change);
            at = link.older;
        }
    }
}
