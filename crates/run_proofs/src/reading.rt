//! The lines of a proof, read.

ghost use Rattle.std.specs.Prelude.{◌≤◌, length, take, ◌≡◌, ◌≢◌, ◌++◌, ◌∷◌, ◌↔◌, ℕ, decimal, codes};
ghost use Rattle.std.specs.Prelude.{IsTrue, MatchOption, List};
ghost use Rattle.std.specs.List.{All};
ghost use Rattle.run_proofs.specs.Texts.{pair_text, step_text, places_text, IsNoNumber, IsNoPair};
ghost use Rattle.run_proofs.specs.Texts.{IsNoStep, AreNoPlaces};
ghost use Rattle.run_proofs.specs.Texts.{clash_text, IsNoClash};

use crate::proof::ProofStep;
use itoa::Buffer;

/// Whether the word is the number in decimal digits.
fn is_decimal(number: u32, word: &[u8]) -> bool
    ensures { IsTrue result ↔ (word.now ≡ decimal number) }
{
    let mut buffer = Buffer::new();
    word == buffer.format(number).as_bytes()
}

/// The number that the word is in decimal digits, without leading zeros.
pub(crate) fn read_number(word: &[u8]) -> Option<u32>
    ensures { MatchOption result (IsNoNumber word.now) (λ n. word.now ≡ decimal n) }
{
    let Ok(text) = str::from_utf8(word) else {
        return None;
    };
    let Ok(number) = text.parse::<u32>() else {
        return None;
    };
    if is_decimal(number, word) {
        Some(number)
    } else {
        None
    }
}

/// The part before the first space, and the part behind it.
fn split_word(text: &[u8]) -> Option<(&[u8], &[u8])>
    ensures { MatchOption result (All (λ b. b ≢ 32) text.now) (λ parts. (text.now
        ≡ parts.0.now ++ 32 ∷ parts.1.now) × All (λ b. b ≢ 32) parts.0.now) }
{
    for (place, byte) in text.iter().enumerate() {
        if *byte == b' ' {
            return Some((&text[..place], &text[place + 1..]));
        }
    }
    None
}

/// The two numbers, separated by a space, that the text is.
fn read_pair(text: &[u8]) -> Option<(u32, u32)>
    ensures { MatchOption result (IsNoPair text.now) (λ pair. text.now ≡ pair_text pair.0 pair.1) }
{
    let Some((one, other)) = split_word(text) else {
        return None;
    };
    let Some(first) = read_number(one) else {
        return None;
    };
    let Some(second) = read_number(other) else {
        return None;
    };
    Some((first, second))
}

/// Whether the line, which is no shorter than the word, begins with it.
fn begins_with(line: &[u8], word: &[u8]) -> bool
    requires { length word.now ≤ length line.now }
    ensures { IsTrue result ↔ (take (length word.now) line.now ≡ word.now) }
{
    &line[..word.len()] == word
}

/// The rest of a line that begins with the word, and `None` where it doesn't.
pub fn rest_of<'a>(line: &'a [u8], word: &[u8]) -> Option<&'a [u8]>
    ensures { MatchOption result ((rest : List ℕ) → line.entry.now ≡ word.entry.now ++ rest
        → ⊥) (λ rest. line.entry.now ≡ word.entry.now ++ rest.now) }
{
    if line.len() < word.len() {
        return None;
    }
    if begins_with(line, word) {
        Some(&line[word.len()..])
    } else {
        None
    }
}

/// The step that the line tells, and `None` where it is no step's line.
pub fn read_step(line: &[u8]) -> Option<ProofStep>
    ensures { MatchOption result (IsNoStep line.now) (λ step. line.now ≡ step_text step) }
{
    let Some(rest) = rest_of(line, b"step ") else {
        return None;
    };
    let Some((from, inclusion)) = read_pair(rest) else {
        return None;
    };
    Some(ProofStep { from, inclusion })
}

/// The two places that the line tells, and `None` where it is no such line.
pub fn read_places(line: &[u8]) -> Option<(u32, u32)>
    ensures { MatchOption result (AreNoPlaces line.now) (λ pair. line.now
        ≡ places_text pair.0 pair.1) }
{
    let Some(rest) = rest_of(line, b"at ") else {
        return None;
    };
    read_pair(rest)
}

/// The number of the clash that the first line of a proof tells, and `None` where it is no such
/// line.
pub fn read_clash(line: &[u8]) -> Option<u32>
    ensures { MatchOption result (IsNoClash line.now) (λ number. line.now ≡ clash_text number) }
{
    let Some(rest) = rest_of(line, b"proof clash ") else {
        return None;
    };
    read_number(rest)
}
