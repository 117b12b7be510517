//! The table, its rule, and a seat of it.
ghost use Rattle.std.specs.Prelude.{◌≡◌, ◌≤◌, length};
ghost use Rattle.lsn_space.specs.declared.lsn.TheConstants.{LEAST_RING, GREATEST_RING, MOST_SLOTS};
ghost use Rattle.lsn_space.specs.declared.opening.TheConstants.{MOST_ACCOUNTS};
ghost use Rattle.table_layout.specs.Layout.{word_count};
ghost use Rattle.log_rule.specs.FirstAccounts.{HasAccounts};

use atomic_table::{Table, TableRule};
use crossbeam_utils::sync::Key;
use log_rule::{Start, View};
use lsn_space::Balances;
use std::alloc::Global;
use table_bells::Bells;

pub(crate) struct Rule;

impl TableRule<(), View, Start> for Rule {
    ghost use Rattle.log_rule.specs.Sound.{Ruled};
    ghost use Rattle.log_rule.specs.Views.{flusher};

    ghost holds = { Ruled };

    ghost first = { flusher };
}

/// The words of the log, shared by threads.
#[derive(Drop)]
pub struct LogTable {
    pub(crate) table: Table<(), View, Start, Rule, Global>,
    pub(crate) ring: u32,
    pub(crate) slots: u32,
    pub(crate) accounts: u32,
    /// The accounts as they were at first. `close` puts those at the end in their place.
    pub(crate) rows: Balances,
    pub(crate) bells: Bells,
    ghost wide: { (LEAST_RING ≤ ring) × (ring ≤ GREATEST_RING) },
    ghost few_slots: { slots ≤ MOST_SLOTS },
    ghost few: { accounts ≤ MOST_ACCOUNTS },
    ghost rowed: { length rows.rows ≡ accounts },
    ghost sized: { table.shared.table_id.words ≡ word_count ring slots accounts },
    ghost slotless: { table.shared.table_id.slots ≡ 0 },
    ghost keyed: { table.shared.key.ring ≡ ring },
    ghost slotted: { table.shared.key.slots ≡ slots },
    ghost counted: { length table.shared.key.accounts.rows ≡ accounts },
    ghost opened: { HasAccounts table.shared.key },
}

impl LogTable {
    /// The length of the ring in units.
    pub fn ring(&self) -> u32
        ensures { result ≡ self.now.ring }
    {
        self.ring
    }

    /// The number of slots.
    pub fn slots(&self) -> u32
        ensures { result ≡ self.now.slots }
    {
        self.slots
    }

    /// The number of accounts.
    pub fn accounts(&self) -> u32
        ensures { result ≡ self.now.accounts }
    {
        self.accounts
    }

    /// Announces a wait for durable or for the stop word. Who then looks at both, in this order, and sees neither come, may wait with the
    /// key: a store that the looks missed is behind the announcement, and ends the wait.
    pub fn listen(&self) -> Key<'_> {
        self.bells.listen()
    }

    /// The same for an account that another holds, or for the stop word. Other accounts share the bell.
    pub fn listen_account(&self, account: u32) -> Key<'_> {
        self.bells.listen_account(account)
    }
}

/// What a thread steps with. It has a view, which contracts speak of.
#[derive(Drop)]
pub struct Seat {
    pub(crate) base: atomic_table::Seat<(), View>,
    pub(crate) worker: u32,
    ghost named: { worker ≡ base.me.0.standing.worker },
}

impl Seat {
    ghost use Rattle.log_table.specs.Seats.{view_of};

    /// The worker's number, as in its view. The flusher's seat has one that means nothing.
    pub fn worker(&self) -> u32
        ensures worker { result ≡ self.now.worker }
        ensures view { result ≡ (view_of self.now).standing.worker }
    {
        self.worker
    }
}
