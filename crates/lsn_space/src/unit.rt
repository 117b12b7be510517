//! A unit of the log and its eight bytes.
ghost use Rattle.std.specs.Prelude.{◌≡◌, ◌<◌, ◌^◌, ℕ, List, length, All};
ghost use Rattle.lsn_space.specs.Unit.{unit_value, unit_bytes};

use byteorder::{BigEndian, ByteOrder};

/// The bytes of a unit.
pub const UNIT_BYTES: usize = 8;

/// The unit that eight bytes stand for, the highest byte first.
pub fn unit_of(bytes: [u8; 8]) -> u64
    ensures { result ≡ unit_value bytes }
{
    BigEndian::read_u64(&bytes)
}

/// The eight bytes of a unit, the highest first.
pub fn bytes_of(unit: u64) -> [u8; 8]
    ensures { result ≡ unit_bytes unit }
{
    let mut bytes = [0; 8];
    BigEndian::write_u64(&mut bytes, unit);
    bytes
}

/// A law: units and their bytes determine each other.
pub fn unit_bytes_inverse()
    ensures unit { (u : ℕ) → u < 2 ^ 64 → unit_value (unit_bytes u) ≡ u }
    ensures bytes { (bs : List ℕ) → length bs ≡ 8 → All (λ b. b < 256) bs → unit_bytes (unit_value bs) ≡ bs }
{}
