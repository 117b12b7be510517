//! The line of a transfer.

ghost use Rattle.std.specs.Prelude.{◌≡◌, ◌<◌, ◌≤◌, ◌^◌, ◌↔◌, ◌++◌, [], ℕ, List, Option, codes, length, take, slice_index, All, IsTrue, IfSome, IfNone};
ghost use Rattle.log_record.specs.Spelling.{IsNoteText};
ghost use Rattle.txn_script.specs.Reading.{IsDigit, EndsNumber, BeginsLeg, EndsLegs};
ghost use Rattle.txn_script.specs.Script.{spaced, leg_text, legs_text, note_text, job_text, IsAllowedLeg, AreAllowedLegs, IsAllowedJob};
ghost use Rattle.lock_core.specs.declared.job.Job.{Job};

use lock_core::{Job, Leg, Legs, Remark};
use log_record::MOST_LEGS;
use lsn_space::{MOST_AMOUNT, number};

/// What stands between the parts of a line.
pub const SPACE: u8 = b' ';

/// The transfer that a line is, if a log of so many accounts allows it.
pub fn read_job(line: &[u8], accounts: u32) -> Option<Job>
    ensures allowed { IfSome result (IsAllowedJob accounts) }
    ensures text { IfSome result (λ job. line.now ≡ job_text job) }
    ensures none { IfNone result ((job : Job) → IsAllowedJob accounts job → line.now ≡ job_text job → ⊥) }
{
    let rest = after_pay(line)?;
    let (legs, rest) = take_legs(rest, accounts)?;
    let note = read_note(rest)?;
    Some(Job { legs, note })
}

/// What follows the word that a transfer begins with.
fn after_pay(line: &[u8]) -> Option<&[u8]>
    ensures some { IfSome result (λ rest. line.now ≡ codes "pay" ++ rest.now) }
    ensures none { IfNone result ((rest : List ℕ) → line.now ≡ codes "pay" ++ rest → ⊥) }
{
    match line {
        [b'p', b'a', b'y', rest @ ..] => Some(rest),
        _ => None,
    }
}

/// The legs that the bytes begin with, and what follows them.
fn take_legs(bytes: &[u8], accounts: u32) -> Option<(Legs, &[u8])>
    ensures text { IfSome result (λ taken. bytes.now ≡ legs_text taken.0 ++ taken.1.now) }
    ensures allowed { IfSome result (λ taken. AreAllowedLegs accounts taken.0) }
    ensures whole { IfSome result (λ taken. EndsLegs taken.1.now) }
    ensures none { IfNone result ((legs : List (ℕ × ℕ × ℕ)) (rest : List ℕ) → AreAllowedLegs accounts legs → EndsLegs rest
        → bytes.now ≡ legs_text legs ++ rest → ⊥) }
{
    let mut legs = Legs::new();
    let mut rest = bytes;
    'legs: while begins_leg(rest) {
        if legs.as_slice().len() == usize::from(MOST_LEGS) {
            return None;
        }
        let (leg, after) = take_leg(rest, accounts)?;
        legs.push(Leg::from(leg));
        rest = after;
    }
    if legs.as_slice().is_empty() {
        return None;
    }
    Some((legs, rest))
}

fn begins_leg(bytes: &[u8]) -> bool
    ensures { IsTrue result ↔ BeginsLeg bytes.now }
{
    matches!(bytes, [SPACE, b'0'..=b'9', ..])
}

/// The leg that the bytes begin with, and what follows it.
fn take_leg(bytes: &[u8], accounts: u32) -> Option<((u32, u32, u32), &[u8])>
    ensures text { IfSome result (λ taken. bytes.now ≡ leg_text taken.0 ++ taken.1.now) }
    ensures allowed { IfSome result (λ taken. IsAllowedLeg accounts taken.0) }
    ensures whole { IfSome result (λ taken. EndsNumber taken.1.now) }
    ensures none { IfNone result ((leg : ℕ × ℕ × ℕ) (rest : List ℕ) → IsAllowedLeg accounts leg → EndsNumber rest
        → bytes.now ≡ leg_text leg ++ rest → ⊥) }
{
    let (payer, rest) = take_number(bytes)?;
    let (payee, rest) = take_number(rest)?;
    let (amount, rest) = take_number(rest)?;
    let leg = (payer, payee, amount);
    if is_allowed(Leg::from(leg), accounts) {
        Some((leg, rest))
    } else {
        None
    }
}

fn is_allowed(leg: Leg, accounts: u32) -> bool
    ensures { IsTrue result ↔ IsAllowedLeg accounts leg }
{
    leg.payer < accounts
        && leg.payee < accounts
        && leg.payer != leg.payee
        && leg.amount >= 1
        && leg.amount <= MOST_AMOUNT
}

/// The number that the bytes begin with, behind a space, and what follows it.
fn take_number(bytes: &[u8]) -> Option<(u32, &[u8])>
    ensures text { IfSome result (λ taken. bytes.now ≡ spaced taken.0 ++ taken.1.now) }
    ensures fits { IfSome result (λ taken. taken.0 < 2 ^ 32) }
    ensures whole { IfSome result (λ taken. EndsNumber taken.1.now) }
    ensures none { IfNone result ((n : ℕ) (rest : List ℕ) → n < 2 ^ 32 → EndsNumber rest → bytes.now ≡ spaced n ++ rest → ⊥) }
{
    let [SPACE, after @ ..] = bytes else {
        return None;
    };
    let (digits, rest) = after.split_at(digits_len(after));
    let n = number(digits, 0, u32::MAX as u64)?;
    Some((n as u32, rest))
}

/// How many digits the bytes begin with.
fn digits_len(bytes: &[u8]) -> usize
    ensures within { result ≤ length bytes.now }
    ensures digits { All IsDigit (take result bytes.now) }
    ensures end { result < length bytes.now → IsDigit (slice_index bytes.now result) → ⊥ }
{
    bytes
        .iter()
        .position(|byte| !matches!(*byte, b'0'..=b'9'))
        .unwrap_or(bytes.len())
}

/// The note that the bytes are, perhaps none.
fn read_note(bytes: &[u8]) -> Option<Option<Remark>>
    ensures allowed { IfSome result (λ note. IfSome note IsNoteText) }
    ensures text { IfSome result (λ note. bytes.now ≡ note_text note) }
    ensures none { IfNone result ((note : Option (List ℕ)) → IfSome note IsNoteText → bytes.now ≡ note_text note → ⊥) }
{
    match bytes {
        [] => Some(None),
        [SPACE, b':', SPACE, text @ ..] => Some(Some(Remark::new(text)?)),
        _ => None,
    }
}
