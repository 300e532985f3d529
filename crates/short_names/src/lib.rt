//! Names and words that stand in place, without memory of their own.
#![tactic(auto)]

ghost use Rattle.std.specs.Prelude.{◌≡◌, ◌≤◌, length, take};
ghost use Rattle.short_names.specs.Names.{name_in};

/// The most bytes of a text.
const BYTE_LIMIT: usize = 64;

/// A text of at most 64 bytes: the first of these bytes.
#[derive(Clone, Copy, Debug, PartialEq, Eq)]
pub struct ShortName {
    bytes: [u8; BYTE_LIMIT],
    length: usize,
}

/// The first bytes of a text.
fn cut(text: &[u8], most: usize) -> &[u8]
    ensures text { result.now ≡ take most text.now }
    ensures short { length result.now ≤ most }
{
    if text.len() < most {
        text
    } else {
        &text[..most]
    }
}

/// A text in place.
fn in_place(text: &[u8]) -> ShortName
    requires { length text.now ≤ 64 }
    ensures { name_in result ≡ text.now }
{
    let mut bytes = [0; BYTE_LIMIT];
    bytes[..text.len()].copy_from_slice(text);
    ShortName {
        bytes,
        length: text.len(),
    }
}

impl ShortName {
    /// The text, cut to 64 bytes.
    pub fn new(text: &[u8]) -> ShortName
        ensures { name_in result ≡ take 64 text.now }
    {
        in_place(cut(text, BYTE_LIMIT))
    }

    /// The bytes of the text.
    pub fn text(&self) -> &[u8]
        ensures text { result.now ≡ name_in self.now }
        ensures short { length result.now ≤ 64 }
    {
        &self.bytes[..self.length.min(BYTE_LIMIT)]
    }
}
