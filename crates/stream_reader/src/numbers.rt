//! The numbers of a head and a count.

ghost use Rattle.std.specs.Prelude.{◌≡◌, ◌<◌, ◌≤◌, ◌++◌, ℕ, length, IfSome, IfNone};
ghost use Rattle.std.specs.Int.{w32, to_be_bytes};
ghost use Rattle.lsn_space.specs.declared.lsn.TheConstants.{LAST};
ghost use Rattle.ship_stream.specs.Stream.{stream_magic};
ghost use Rattle.ship_stream.specs.declared.layout.TheConstants.{COUNT_BYTES, HEAD_BYTES};

use lsn_space::Lsn;

/// The LSN of these bytes, which are as many as a head has.
pub(crate) fn head_lsn(bytes: &[u8]) -> Option<Lsn>
    requires { length bytes.now ≡ HEAD_BYTES }
    ensures some { IfSome result (λ first. bytes.now ≡ stream_magic ++ to_be_bytes w32 first) }
    ensures fits { IfSome result (λ first. first ≤ LAST) }
    ensures none { IfNone result ((first : ℕ) → bytes.now ≡ stream_magic ++ to_be_bytes w32 first → ⊥) }
{
    match bytes {
        [b'A', b'E', b'S', b'H', b'I', b'P', b'1', a, b, c, d] => {
            Some(Lsn::new(u32::from_be_bytes([*a, *b, *c, *d])))
        }
        _ => None,
    }
}

/// The number of these bytes, where they are as many as a count has.
pub(crate) fn count_in(bytes: &[u8]) -> Option<u32>
    requires { length bytes.now ≤ COUNT_BYTES }
    ensures some { IfSome result (λ count. bytes.now ≡ to_be_bytes w32 count) }
    ensures none { IfNone result (length bytes.now < COUNT_BYTES) }
{
    match bytes {
        [a, b, c, d] => Some(u32::from_be_bytes([*a, *b, *c, *d])),
        _ => None,
    }
}
