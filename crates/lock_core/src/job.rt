//! A job: a transfer as a user asks for it.
ghost use Rattle.std.specs.Prelude.{◌≡◌, ◌<◌, ◌≤◌, ◌++◌, ◌∷◌, [], length, ℕ, None, IfSome, IfNone};
ghost use Rattle.log_record.specs.declared.limits.TheConstants.{MOST_LEGS};
ghost use Rattle.log_record.specs.Spelling.{IsNoteText};

use arrayvec::ArrayVec;
use log_record::{LONGEST_NOTE, MOST_LEGS, Text, is_printable};
use std::marker::Model;

/// A leg of a transfer: who pays, who receives, and how much. Contracts see the three, in this order.
#[derive(Clone, Copy, Debug, Default, PartialEq, Eq)]
pub struct Leg {
    /// The account that pays.
    pub payer: u32,

    /// The account that receives.
    pub payee: u32,

    pub amount: u32,
}

impl Model for Leg {
    ghost use Rattle.std.specs.Prelude.{ℕ};

    ghost Value = { ℕ × ℕ × ℕ };

    ghost view = { λ leg. (leg.payer, leg.payee, leg.amount) };

    ghost inverse = { λ leg. record { payer = leg.0; payee = leg.1; amount = leg.2 } };
}

impl From<(u32, u32, u32)> for Leg {
    fn from(leg: (u32, u32, u32)) -> Leg
        ensures { result ≡ leg }
    {
        let (payer, payee, amount) = leg;
        Leg {
            payer,
            payee,
            amount,
        }
    }
}

/// The legs of a transfer, at most `MOST_LEGS`. Contracts see the list of them.
#[derive(Debug, Drop)]
pub struct Legs {
    legs: ArrayVec<Leg, 8>,
}

impl Model for Legs {
    ghost use Rattle.std.specs.Prelude.{ℕ, List};

    ghost Value = { List (ℕ × ℕ × ℕ) };

    ghost view = { λ legs. legs.legs.items };
}

impl Legs {
    /// No legs yet.
    pub fn new() -> Legs
        ensures { result ≡ [] }
    {
        Legs {
            legs: ArrayVec::new(),
        }
    }

    /// Appends a leg.
    pub fn push(&mut self, leg: Leg)
        requires { length self.old < MOST_LEGS }
        ensures { self.new ≡ self.old ++ leg ∷ [] }
    {
        self.legs.push(leg);
    }

    /// Takes all legs away.
    fn clear(&mut self)
        ensures { self.new ≡ [] }
    {
        self.legs.clear();
    }

    /// The same legs once more.
    fn copy(&self) -> Legs
        ensures { result ≡ self.now }
    {
        let mut legs = ArrayVec::new();
        legs.try_extend_from_slice(self.legs.as_slice()).unwrap();
        Legs { legs }
    }

    /// The legs, in their order.
    pub fn as_slice(&self) -> &[Leg]
        ensures legs { result.now ≡ self.now }
        ensures few { length self.now ≤ MOST_LEGS }
    {
        self.legs.as_slice()
    }
}

/// What a user says of a transfer: 1 to 200 bytes of printable ASCII. Contracts see the list of them.
#[derive(Debug, Drop)]
pub struct Remark {
    text: Text,
}

impl Model for Remark {
    ghost use Rattle.std.specs.Prelude.{ℕ, List};
    ghost use Rattle.log_record.specs.Spelling.{IsNoteText};

    ghost Value = { List ℕ };

    ghost view = { λ remark. remark.text };

    ghost invariant = { λ remark. IsNoteText remark.text };
}

impl Remark {
    /// The remark of these bytes, if it may be one.
    pub fn new(text: &[u8]) -> Option<Remark>
        ensures text { IfSome result (λ remark. remark ≡ text.now) }
        ensures none { IfNone result (IsNoteText text.now → ⊥) }
    {
        if text.is_empty() || text.len() > LONGEST_NOTE || !is_printable(text) {
            return None;
        }
        Some(Remark {
            text: Text::from_bytes(text),
        })
    }

    /// The same remark once more.
    fn copy(&self) -> Remark
        ensures { result ≡ self.now }
    {
        Remark {
            text: Text::from_bytes(self.text.as_slice()),
        }
    }

    /// Its bytes.
    pub fn as_slice(&self) -> &[u8]
        ensures bytes { result.now ≡ self.now }
        ensures note { IsNoteText self.now }
    {
        self.text.as_slice()
    }
}

/// A transfer: the legs in which it moves money, and what its user says of it.
#[derive(Debug, Drop)]
pub struct Job {
    pub legs: Legs,
    pub note: Option<Remark>,
}

impl Job {
    /// No legs and no note yet.
    pub fn new() -> Job
        ensures { result ≡ record { legs = []; note = None } }
    {
        Job {
            legs: Legs::new(),
            note: None,
        }
    }

    /// The same transfer once more.
    pub fn copy(&self) -> Job
        ensures { result ≡ self.now }
    {
        let note = match &self.note {
            Some(remark) => Some(remark.copy()),
            None => None,
        };
        Job {
            legs: self.legs.copy(),
            note,
        }
    }

    /// The leg of a transfer that has no other, and no note.
    pub fn single(&self) -> Option<Leg>
        ensures some { IfSome result (λ leg. self.now ≡ record { legs = leg ∷ []; note = None }) }
        ensures none { IfNone result ((leg : ℕ × ℕ × ℕ) → self.now ≡ record { legs = leg ∷ []; note = None } → ⊥) }
    {
        match (self.legs.as_slice(), &self.note) {
            ([leg], None) => Some(*leg),
            _ => None,
        }
    }

    /// Makes this the transfer of one leg and no note. Where it has no note, none is written.
    pub fn become_single(&mut self, leg: Leg)
        ensures { self.new ≡ record { legs = leg ∷ []; note = None } }
    {
        self.legs.clear();
        self.legs.push(leg);
        if self.note.is_some() {
            self.note = None;
        }
    }

    /// The transfer of one leg and no note.
    pub fn of_leg(leg: Leg) -> Job
        ensures { result ≡ record { legs = leg ∷ []; note = None } }
    {
        let mut job = Job::new();
        job.legs.push(leg);
        job
    }
}
