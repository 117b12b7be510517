//! A slot's fields, packed into the word of the table.
ghost use Rattle.std.specs.Prelude.{◌≡◌, ◌≤◌, ◌<◌, ◌-◌, ◌^◌, ℕ};
ghost use Rattle.slot_word.specs.SlotWord.{packed, word_of, phase_in, total_in, remaining_in, IsSlotWord, subtracted, swapped};
ghost use Rattle.slot_word.specs.declared.phase.Phase.TheVariants.{Pending};

use crate::phase::Phase;
use crate::slot_word::SlotWord;

/// Where the phase begins in the word.
const PHASE_AT: u64 = 62;

/// Where the total begins in the word. What remains stands below it.
const TOTAL_AT: u64 = 31;

/// The bits of a total, and of what remains.
const UNITS_BITS: u64 = 0x7fff_ffff;

impl SlotWord {
    /// The slot whose word this is. Not every word is a slot's.
    pub fn unpack(word: u64) -> SlotWord
        requires { IsSlotWord word }
        ensures phase { result.phase ≡ phase_in word }
        ensures total { result.total ≡ total_in word }
        ensures remaining { result.remaining ≡ remaining_in word }
    {
        let total = (word >> TOTAL_AT & UNITS_BITS) as u32;
        let remaining = (word & UNITS_BITS) as u32;
        match word >> PHASE_AT {
            0 => SlotWord::fresh(total),
            1 => SlotWord::pending(),
            2 => SlotWord::published(total, remaining),
            _ => SlotWord::refused(total, remaining),
        }
    }

    /// The word.
    pub fn pack(self) -> u64
        ensures word { result ≡ word_of self }
        ensures slot { IsSlotWord result }
    {
        let phase_part = self.phase().number() << PHASE_AT;
        let total_part = (self.total() as u64) << TOTAL_AT;
        phase_part + total_part + self.remaining() as u64
    }
}

/// A law: what was packed is unpacked, and each word is packed of what it unpacks to. A word is a slot's exactly where `IsSlotWord`
/// says so, and two different slots have different words. A release of what remains, taken from the word by subtraction, changes
/// what remains alone. A swap to a pending slot leaves the one word of such a slot, whatever stood there.
pub fn slot_word_law()
    ensures fits { (phase : Phase) (total remaining : ℕ) → total < 2 ^ 31 → remaining < 2 ^ 31
        → packed phase total remaining < 2 ^ 64 }
    ensures phase { (phase : Phase) (total remaining : ℕ) → total < 2 ^ 31 → remaining < 2 ^ 31
        → phase_in (packed phase total remaining) ≡ phase }
    ensures total { (phase : Phase) (total remaining : ℕ) → total < 2 ^ 31 → remaining < 2 ^ 31
        → total_in (packed phase total remaining) ≡ total }
    ensures remaining { (phase : Phase) (total remaining : ℕ) → total < 2 ^ 31 → remaining < 2 ^ 31
        → remaining_in (packed phase total remaining) ≡ remaining }
    ensures word { (word : ℕ) → word < 2 ^ 64 → packed (phase_in word) (total_in word) (remaining_in word) ≡ word }
    ensures slot { (slot : SlotWord) → IsSlotWord (word_of slot) }
    ensures exact { (word : ℕ) → word < 2 ^ 64 → IsSlotWord word → (slot : SlotWord) × (word_of slot ≡ word) }
    ensures apart { (a b : SlotWord) → word_of a ≡ word_of b → a ≡ b }
    ensures release { (phase : Phase) (total remaining n : ℕ) → total < 2 ^ 31 → remaining < 2 ^ 31 → n ≤ remaining
        → subtracted n (packed phase total remaining) ≡ packed phase total (remaining - n) }
    ensures close { (slot : SlotWord) → slot.phase ≡ Pending → (word : ℕ) → swapped (word_of slot) word ≡ packed Pending 0 0 }
{}
