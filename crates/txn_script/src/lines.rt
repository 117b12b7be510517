//! A text, line by line.

ghost use Rattle.std.specs.Prelude.{◌≡◌, ◌≢◌, ◌<◌, ◌≤◌, ◌∷◌, ◌++◌, [], ℕ, List, length, take, slice_index, All, IfSome, IfNone};
ghost use Rattle.txn_script.specs.Lines.{lines, ended, IsOneLine};

/// What ends a line.
pub const LF: u8 = b'\n';

/// The first line, and what follows it.
pub fn take_line(bytes: &[u8]) -> Option<(&[u8], &[u8])>
    ensures line { IfSome result (λ taken. lines bytes.now ≡ taken.0.now ∷ lines taken.1.now) }
    ensures shorter { IfSome result (λ taken. length taken.1.now < length bytes.now) }
    ensures none { IfNone result (lines bytes.now ≡ []) }
{
    if bytes.is_empty() {
        return None;
    }
    let (line, rest) = bytes.split_at(line_len(bytes));
    match rest {
        [_, after @ ..] => Some((line, after)),
        [] => Some((line, rest)),
    }
}

/// How many bytes stand before the first line feed; all of them where there is none.
fn line_len(bytes: &[u8]) -> usize
    ensures within { result ≤ length bytes.now }
    ensures before { All (λ byte. byte ≢ LF) (take result bytes.now) }
    ensures found { result < length bytes.now → slice_index bytes.now result ≡ LF }
{
    bytes
        .iter()
        .position(|byte| *byte == LF)
        .unwrap_or(bytes.len())
}

/// A law: the lines of a text are what was written with a line feed behind each, which the last one may lack.
pub fn written_lines()
    ensures ended { (each : List (List ℕ)) → All IsOneLine each → lines (ended each) ≡ each }
    ensures lacking { (each : List (List ℕ)) (last : List ℕ) → All IsOneLine each → IsOneLine last → 0 < length last
        → lines (ended each ++ last) ≡ each ++ last ∷ [] }
{}
