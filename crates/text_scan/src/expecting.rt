//! The next token, where one of a kind is expected.

ghost use Rattle.std.specs.Prelude.{◌≡◌, ◌≤◌, ◌==◌, ◌||◌, length};
ghost use Rattle.text_scan.specs.Bytes.{is_blank};
ghost use Rattle.text_scan.specs.Expecting.{IsMark, IsNextOf};

use crate::{Next, Piece, Token, TokenKind, mark_of, named_at, next_token, token_at};
use dl_syntax::starts_name;

/// The next token, if it is of this kind.
#[inline]
fn next_of<'a>(text: &'a [u8], from: usize, kind: TokenKind) -> Option<Token<'a>>
    requires { from ≤ length text.now }
    ensures { IsNextOf kind text.now from result }
{
    match next_token(text, from) {
        Next::Token(token) => {
            if token.kind == kind {
                Some(token)
            } else {
                None
            }
        }
        _ => None,
    }
}

/// The next token, if it is a name, which is found at once right at `from`.
#[inline]
fn name_from<'a>(text: &'a [u8], from: usize) -> Option<Token<'a>>
    requires { from ≤ length text.now }
    ensures { IsNextOf TokenKind.Name text.now from result }
{
    if from == text.len() || !starts_name(text[from]) {
        return next_of(text, from, TokenKind::Name);
    }
    match named_at(text, TokenKind::Name, 1, from + 1) {
        Piece::Word(kind, len) => Some(token_at(text, kind, from, len)),
        Piece::Gap(_) => None,
        Piece::Fault => None,
    }
}

/// The next token, if it is a name. A name at `from`, or one blank behind it, is found at once.
#[inline]
pub fn next_name<'a>(text: &'a [u8], from: usize) -> Option<Token<'a>>
    requires { from ≤ length text.now }
    ensures { IsNextOf TokenKind.Name text.now from result }
{
    if from < text.len() && text[from] == b' ' {
        name_from(text, from + 1)
    } else {
        name_from(text, from)
    }
}

#[inline]
fn begins_gap(byte: u8) -> bool
    ensures { result ≡ is_blank byte || byte == 35 }
{
    matches!(byte, b' ' | b'\t' | b'\r' | b'\n' | b'#')
}

/// The next token, if it is this mark. A mark at `from` is found at once.
#[inline]
pub fn next_mark<'a>(text: &'a [u8], from: usize, kind: TokenKind) -> Option<Token<'a>>
    requires place { from ≤ length text.now }
    requires mark { IsMark kind }
    ensures { IsNextOf kind text.now from result }
{
    if from == text.len() || begins_gap(text[from]) {
        return next_of(text, from, kind);
    }
    match mark_of(text[from]) {
        Piece::Word(found, len) => {
            if found == kind {
                Some(token_at(text, kind, from, len))
            } else {
                None
            }
        }
        Piece::Gap(_) => None,
        Piece::Fault => None,
    }
}
