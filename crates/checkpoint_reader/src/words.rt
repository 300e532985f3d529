//! Words of a line.

ghost use Rattle.std.specs.Prelude.{◌≡◌, ◌≢◌, ◌++◌, ◌∷◌, ◌↔◌, ◌≤◌, ℕ, List, MatchOption, IsTrue};
ghost use Rattle.std.specs.Prelude.{length, take, decimal};
ghost use Rattle.checkpoint_reader.specs.Lines.{EndsWord, Lacks};

use itoa::Buffer;

/// The part before the first such byte, and the part behind it.
pub(crate) fn split_at(text: &[u8], byte: u8) -> Option<(&[u8], &[u8])>
    ensures { MatchOption result (Lacks byte text.now) (λ parts.
        (text.now ≡ parts.0.now ++ byte ∷ parts.1.now) × Lacks byte parts.0.now) }
{
    for (place, found) in text.iter().enumerate() {
        if *found == byte {
            return Some((&text[..place], &text[place + 1..]));
        }
    }
    None
}

/// Whether the line, which is no shorter than the word, begins with it.
fn begins_with(line: &[u8], word: &[u8]) -> bool
    requires { length word.now ≤ length line.now }
    ensures { IsTrue result ↔ (take (length word.now) line.now ≡ word.now) }
{
    &line[..word.len()] == word
}

/// The rest of a line that begins with the word.
pub(crate) fn rest_of<'a>(line: &'a [u8], word: &[u8]) -> Option<&'a [u8]>
    ensures { MatchOption result ((rest : List ℕ) → line.entry.now ≡ word.entry.now ++ rest
        → ⊥) (λ rest. line.entry.now ≡ word.entry.now ++ rest.now) }
{
    if line.len() < word.len() {
        return None;
    }
    if begins_with(line, word) {
        Some(&line[word.len()..])
    } else {
        None
    }
}

/// The rest of a line that begins with the word and the number in decimal digits.
pub(crate) fn rest_of_numbered<'a>(line: &'a [u8], word: &[u8], number: u16) -> Option<&'a [u8]>
    ensures { MatchOption result ((rest : List ℕ) → line.entry.now
        ≡ word.entry.now ++ (decimal number ++ rest) → ⊥) (λ rest. line.entry.now
        ≡ word.entry.now ++ (decimal number ++ rest.now)) }
{
    let mut buffer = Buffer::new();
    let Some(behind) = rest_of(line, word) else {
        return None;
    };
    let Some(rest) = rest_of(behind, buffer.format(number).as_bytes()) else {
        return None;
    };
    Some(rest)
}

/// The part before the first space, and the part from it on.
pub(crate) fn word_of(text: &[u8]) -> (&[u8], &[u8])
    ensures cut { text.now ≡ result.0.now ++ result.1.now }
    ensures word { Lacks 32 result.0.now }
    ensures ends { EndsWord result.1.now }
{
    for (place, byte) in text.iter().enumerate() {
        if *byte == b' ' {
            return (&text[..place], &text[place..]);
        }
    }
    (text, &text[text.len()..])
}
