//! Numbers as text, written and read.
ghost use Rattle.std.specs.Prelude.{◌≡◌, ◌≤◌, ◌<◌, ◌^◌, ℕ, Some, IsTrue, ◌↔◌, IfSome, IfNone};
ghost use Rattle.lsn_space.specs.Number.{number_text};

use arrayvec::ArrayVec;
use itoa::Buffer;

/// The most transfers that are generated at once.
pub const MOST_GENERATED: u32 = 100_000;

/// A number as text: `0`, or decimal digits of which the first isn't `0`.
pub fn decimal(n: u64) -> ArrayVec<u8, 20>
    ensures { result.items ≡ number_text n }
{
    let mut buffer = Buffer::new();
    let text = buffer.format(n);
    let mut digits = ArrayVec::new();
    digits.try_extend_from_slice(text.as_bytes()).unwrap();
    digits
}

/// The number from `least` to `most` of which this is the text: `0`, or decimal digits of which the first isn't `0`. A
/// text with a sign, a space or any other byte is that of no number.
pub fn number(text: &[u8], least: u64, most: u64) -> Option<u64>
    ensures least { IfSome result (λ n. least ≤ n) }
    ensures most { IfSome result (λ n. n ≤ most) }
    ensures text { IfSome result (λ n. text.now ≡ number_text n) }
    ensures none { IfNone result ((n : ℕ) → least ≤ n → n ≤ most → text.now ≡ number_text n → ⊥) }
{
    match digits(text) {
        Some(n) if n >= least && n <= most && is_text_of(text, n) => Some(n),
        _ => None,
    }
}

/// The number that digits write, with leading zeros too or a plus sign.
fn digits(text: &[u8]) -> Option<u64>
    ensures { (n : ℕ) → n < 2 ^ 64 → text.now ≡ number_text n → result ≡ Some n }
{
    match str::from_utf8(text) {
        Ok(text) => text.parse::<u64>().ok(),
        Err(_) => None,
    }
}

fn is_text_of(text: &[u8], n: u64) -> bool
    ensures { IsTrue result ↔ (text.now ≡ number_text n) }
{
    decimal(n).as_slice() == text
}
