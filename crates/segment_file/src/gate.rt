//! What follows an open gate.

ghost use Rattle.std.specs.Prelude.{◌≡◌, ◌<◌, ◌∷◌, ◌++◌, length, IfSome, IfNone};
ghost use Rattle.segment_file.specs.File.{magic, BeginsOpen, BeginsAsFirst};

use crate::layout::OPEN;

/// What follows the gate that the bytes begin with, where it is open. A gate that is the last byte of a file isn't: the
/// write that first makes the byte may leave any value there.
pub fn after_gate(bytes: &[u8]) -> Option<&[u8]>
    ensures some { IfSome result (λ rest. (bytes.now ≡ OPEN ∷ rest.now) × (0 < length rest.now)) }
    ensures none { IfNone result (BeginsOpen bytes.now → ⊥) }
{
    match bytes {
        [OPEN, rest @ ..] if !rest.is_empty() => Some(rest),
        _ => None,
    }
}

/// What follows the open gate and the magic bytes that a file of the first format begins with.
pub fn after_magic(bytes: &[u8]) -> Option<&[u8]>
    ensures some { IfSome result (λ rest. bytes.now ≡ OPEN ∷ magic ++ rest.now) }
    ensures none { IfNone result (BeginsAsFirst bytes.now → ⊥) }
{
    match bytes {
        [OPEN, b'A', b'E', b'T', b'H', b'E', b'R', b'1', rest @ ..] => Some(rest),
        _ => None,
    }
}
