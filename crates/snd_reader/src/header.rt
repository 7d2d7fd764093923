//! The first line of a text.

ghost use Rattle.std.specs.Prelude.{◌≡◌, ◌≢◌, ◌≤◌, ◌++◌, ℕ, List, length, IfSome};
ghost use Rattle.std.specs.Option.{MatchOption};
ghost use Rattle.snd_lexer.specs.Pieces.{front};
ghost use Rattle.snd_reader.specs.Header.{is_line_blank, ends_line, HasHeader};

/// The text behind its first line, where that line is the header but for blanks at its end.
///
/// - Takes: the header line, without its LF; a text.
/// - Gives: the text from the LF that ends the first line on, or its empty end.
/// - Rule: docs/FORMATS.md, "Tokens of a text".
/// - Time: linear in the line.
pub fn behind_header<'a>(header: &[u8], text: &'a [u8]) -> Option<&'a [u8]>
    ensures header { MatchOption result ((rest : List ℕ) → HasHeader header.now text.now rest → ⊥) (λ rest. HasHeader header.now text.now rest.now) }
    ensures within { IfSome result (λ rest. length rest.now ≤ length text.now) }
{
    let Some(line) = behind_front(header, text) else {
        return None;
    };
    let (_, rest) = line.split_at(blanks_len(line));
    if !ends_line(rest) {
        return None;
    }
    Some(rest)
}

/// The text behind these bytes, where it begins with them.
fn behind_front<'a>(front: &[u8], text: &'a [u8]) -> Option<&'a [u8]>
    ensures { MatchOption result ((rest : List ℕ) → text.now ≢ front.now ++ rest) (λ rest. text.now ≡ front.now ++ rest.now) }
{
    text.strip_prefix(front)
}

/// How many blanks of a line stand at the front.
fn blanks_len(text: &[u8]) -> usize
    ensures len { result ≡ length (front is_line_blank text.now) }
    ensures within { result ≤ length text.now }
{
    for (i, byte) in text.iter().enumerate() {
        if !matches!(byte, b' ' | b'\t' | b'\r') {
            return i;
        }
    }
    text.len()
}

/// Whether nothing more of a line stands at the front.
fn ends_line(text: &[u8]) -> bool
    ensures { result ≡ ends_line text.now }
{
    matches!(text, [] | [b'\n', ..])
}
