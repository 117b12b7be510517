//! The bytes of a note.

ghost use Rattle.std.specs.Prelude.{◌≡◌, ◌<◌, ◌≤◌, ◌++◌, ◌∷◌, [], length, nat_eq};
ghost use Rattle.std.specs.Cmp.{partial_equiv_from_equiv};
ghost use Rattle.std.specs.Cmp.Lexicographic.{pointwise, nat_list_eq_equiv};
ghost use Rattle.log_record.specs.declared.text.TheConstants.{LONGEST_NOTE};

use arrayvec::ArrayVec;
use std::marker::Model;

/// The most bytes of a note.
pub const LONGEST_NOTE: usize = 200;

/// The bytes of a note, at most `LONGEST_NOTE`. Contracts see the list of them.
#[derive(Debug, Drop)]
pub struct Text {
    bytes: ArrayVec<u8, LONGEST_NOTE>,
}

impl Model for Text {
    ghost use Rattle.std.specs.Prelude.{ℕ, List};

    ghost Value = { List ℕ };

    ghost view = { λ text. text.bytes.items };
}

impl Text {
    pub fn new() -> Text
        ensures { result ≡ [] }
    {
        Text {
            bytes: ArrayVec::new(),
        }
    }

    pub fn from_bytes(bytes: &[u8]) -> Text
        requires { length bytes.now ≤ LONGEST_NOTE }
        ensures { result ≡ bytes.now }
    {
        let mut text = ArrayVec::new();
        text.try_extend_from_slice(bytes).unwrap();
        Text { bytes: text }
    }

    pub fn push(&mut self, byte: u8)
        requires { length self.old < LONGEST_NOTE }
        ensures { self.new ≡ self.old ++ byte ∷ [] }
    {
        self.bytes.push(byte);
    }

    pub fn as_slice(&self) -> &[u8]
        ensures bytes { result.now ≡ self.now }
        ensures short { length self.now ≤ LONGEST_NOTE }
    {
        self.bytes.as_slice()
    }
}

impl PartialEq for Text {
    ghost eq = { pointwise nat_eq };

    ghost laws = { partial_equiv_from_equiv nat_list_eq_equiv };

    fn eq(&self, other: &Self) -> bool {
        self.as_slice() == other.as_slice()
    }
}

impl Eq for Text {
    ghost laws = { nat_list_eq_equiv };
}
