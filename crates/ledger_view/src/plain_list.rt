//! The list of entries that the plain program finds.

ghost use Rattle.std.specs.Prelude.{◌≡◌, ◌++◌, ◌∷◌, [], OnOk};

use crate::entries::Entry;
use lsn_space::NoMemory;
use std::alloc::Global;
use std::marker::Model;

/// Entries that the plain program found, of a list that needn't be lawful. Contracts see the list of them.
#[derive(Debug, Drop)]
pub struct EntryList {
    items: Vec<Entry>,
}

impl Model for EntryList {
    ghost use Rattle.std.specs.Prelude.{List};
    ghost use Rattle.ledger_view.specs.declared.entries.Entry.{Entry};

    ghost Value = { List Entry };

    ghost view = { λ list. list.items.items };
}

impl EntryList {
    /// No entry.
    pub(crate) fn new(alloc: Global) -> EntryList
        ensures { result ≡ [] }
    {
        EntryList {
            items: Vec::new(alloc),
        }
    }

    /// Appends an entry.
    pub(crate) fn push(&mut self, entry: Entry) -> Result<(), NoMemory>
        ensures { OnOk result (self.new ≡ self.old ++ entry ∷ []) }
    {
        match self.items.push(entry) {
            Ok(()) => Ok(()),
            Err(_) => Err(NoMemory),
        }
    }

    /// The entries, in their order.
    pub fn as_slice(&self) -> &[Entry]
        ensures { result.now ≡ self.now }
    {
        self.items.as_slice()
    }
}
