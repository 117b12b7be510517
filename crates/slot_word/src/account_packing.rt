//! An account's fields, packed into the word of the table.
ghost use Rattle.std.specs.Prelude.{◌≡◌, ◌<◌, ◌^◌, ℕ, Bool};
ghost use Rattle.slot_word.specs.AccountWord.{packed, word_of, held_in, last_commit_in, IsAccountWord};

use crate::account_word::AccountWord;

/// Where the held bit stands in the word.
const HELD_AT: u64 = 63;

/// The bits of a last commit.
const MARK_BITS: u64 = 0xffff_ffff;

impl AccountWord {
    /// The account's fields in a word. Of an account's word they are packed to the same again.
    pub fn unpack(word: u64) -> AccountWord
        ensures held { result.held ≡ held_in word }
        ensures mark { result.mark ≡ last_commit_in word }
    {
        let mark = (word & MARK_BITS) as u32;
        if word >> HELD_AT == 1 {
            AccountWord::taken(mark)
        } else {
            AccountWord::free(mark)
        }
    }

    /// The word.
    pub fn pack(self) -> u64
        ensures { result ≡ word_of self }
    {
        let held_part = (self.held() as u64) << HELD_AT;
        held_part + self.mark() as u64
    }
}

/// A law: what was packed is an account's word, and is unpacked; and each account's word is packed of what it unpacks to.
pub fn account_word_law()
    ensures fits { (held : Bool) (mark : ℕ) → mark < 2 ^ 32 → packed held mark < 2 ^ 64 }
    ensures account { (held : Bool) (mark : ℕ) → mark < 2 ^ 32 → IsAccountWord (packed held mark) }
    ensures held { (held : Bool) (mark : ℕ) → mark < 2 ^ 32 → held_in (packed held mark) ≡ held }
    ensures mark { (held : Bool) (mark : ℕ) → mark < 2 ^ 32 → last_commit_in (packed held mark) ≡ mark }
    ensures word { (word : ℕ) → word < 2 ^ 64 → IsAccountWord word → packed (held_in word) (last_commit_in word) ≡ word }
{}
