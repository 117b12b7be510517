//! Words of the shared table that hold several fields, packed into 64 bits.
#![tactic(auto)]

mod account_packing;
mod account_word;
mod phase;
mod slot_packing;
mod slot_word;

pub use account_packing::account_word_law;
pub use account_word::AccountWord;
pub use phase::Phase;
pub use slot_packing::slot_word_law;
pub use slot_word::SlotWord;
