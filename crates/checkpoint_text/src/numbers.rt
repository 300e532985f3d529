//! Numbers in decimal digits.

ghost use Rattle.std.specs.Prelude.{◌≡◌, ◌++◌, ◌↔◌, decimal, IsTrue, MatchOption, OnOk};
ghost use Rattle.checkpoint_text.specs.Numbers.{IsNoNumber};

use formula_store::Memory;
use itoa::Buffer;

/// Appends the number in decimal digits.
pub fn append_number(out: &mut Vec<u8>, number: u64) -> Result<(), Memory>
    ensures { OnOk result (out.new.items ≡ out.old.items ++ decimal number) }
{
    let mut buffer = Buffer::new();
    out.extend_from_slice(buffer.format(number).as_bytes())
}

/// Whether the word is the number in decimal digits.
fn is_decimal(number: u64, word: &[u8]) -> bool
    ensures { IsTrue result ↔ (word.now ≡ decimal number) }
{
    let mut buffer = Buffer::new();
    word == buffer.format(number).as_bytes()
}

/// The number that the word is in decimal digits, without leading zeros. Takes no memory.
pub fn read_number(word: &[u8]) -> Option<u64>
    ensures { MatchOption result (IsNoNumber word.now) (λ n. word.now ≡ decimal n) }
{
    let Ok(text) = str::from_utf8(word) else {
        return None;
    };
    let Ok(number) = text.parse::<u64>() else {
        return None;
    };
    if is_decimal(number, word) {
        Some(number)
    } else {
        None
    }
}
