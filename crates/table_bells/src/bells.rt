//! The bells, who listens for one, and who rings it.
use crossbeam_utils::sync::{EventCount, Key};
use std::array;

/// How many bells the accounts share: so few that a table has room for them, and so many that a sleeper is seldom woken for another account.
const ACCOUNT_BELLS: usize = 16;

/// A bell for durable and stop, and those of the accounts. To ring one for which nobody listens is to load a word.
#[derive(Drop)]
pub struct Bells {
    /// Rung behind each store of durable or of the stop word.
    log: EventCount,
    /// The one of an account is rung behind each store that gives it back, and all behind a store of the stop word.
    accounts: [EventCount; ACCOUNT_BELLS],
}

impl Bells {
    /// Nobody listens.
    pub fn new() -> Bells {
        Bells {
            log: EventCount::new(),
            accounts: array::from_fn(|_| EventCount::new()),
        }
    }

    /// Announces a wait for durable or for the stop word.
    pub fn listen(&self) -> Key<'_> {
        self.log.prepare_wait()
    }

    /// Announces a wait for this account or for the stop word.
    pub fn listen_account(&self, account: u32) -> Key<'_> {
        self.of_account(account).prepare_wait()
    }

    /// Durable was stored.
    pub fn ring(&self) {
        self.log.notify_all();
    }

    /// This account was given back.
    pub fn ring_account(&self, account: u32) {
        self.of_account(account).notify_all();
    }

    /// The stop word was stored.
    pub fn ring_all(&self) {
        self.log.notify_all();
        for bell in &self.accounts {
            bell.notify_all();
        }
    }

    fn of_account(&self, account: u32) -> &EventCount {
        &self.accounts[account as usize % ACCOUNT_BELLS]
    }
}
