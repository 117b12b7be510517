//! What the table holds of an account beside its balance: its fields and how each is read.

ghost use Rattle.std.specs.Prelude.{◌≡◌, true, false};

/// What the table holds of an account beside its balance, in one word: whether a worker holds it, and the LSN at which its last
/// commit ends (0 where it has none). In the word the held bit is the highest, and the LSN has the 32 lowest; those between are 0.
#[derive(Clone, Copy, Debug, PartialEq, Eq)]
pub struct AccountWord {
    held: bool,
    mark: u32,
}

impl AccountWord {
    /// No worker holds the account.
    pub fn free(mark: u32) -> AccountWord
        ensures held { result.held ≡ false }
        ensures mark { result.mark ≡ mark }
    {
        AccountWord { held: false, mark }
    }

    /// A worker holds the account.
    pub fn taken(mark: u32) -> AccountWord
        ensures held { result.held ≡ true }
        ensures mark { result.mark ≡ mark }
    {
        AccountWord { held: true, mark }
    }

    pub fn held(self) -> bool
        ensures { result ≡ self.held }
    {
        self.held
    }

    pub fn mark(self) -> u32
        ensures { result ≡ self.mark }
    {
        self.mark
    }
}
