//! Numbers as words.

ghost use Rattle.std.specs.Prelude.{◌≡◌, ◌≤◌, MatchOption};
ghost use Rattle.std.specs.Char.{is_ascii_digit};
ghost use Rattle.std.specs.List.{list_all};
ghost use Rattle.command_words.specs.Numbers.{is_number, number_of};

/// Whether the byte is a digit.
fn is_digit(byte: u8) -> bool
    ensures { result ≡ is_ascii_digit byte }
{
    byte.is_ascii_digit()
}

/// Whether each byte is a digit.
fn are_digits(bytes: &[u8]) -> bool
    ensures { result ≡ list_all is_ascii_digit bytes.now }
{
    bytes.iter().all(|byte| is_digit(*byte))
}

/// Whether the word is decimal digits without a leading zero, except `0` itself.
fn is_number(word: &str) -> bool
    ensures { result ≡ is_number word.now }
{
    let bytes = word.as_bytes();
    match bytes {
        [] => false,
        [first, rest @ ..] => are_digits(bytes) && (rest.is_empty() || *first != b'0'),
    }
}

/// The number that the digits say, where they are such digits and say no more than the limit.
pub fn read_number(word: &str, limit: u32) -> Option<u32>
    ensures number { result ≡ number_of limit word.now }
    ensures within { MatchOption result (Unit {0}) (λ n. n ≤ limit) }
{
    if !is_number(word) {
        return None;
    }
    let Ok(number) = word.parse::<u32>() else {
        return None;
    };
    if number <= limit { Some(number) } else { None }
}
