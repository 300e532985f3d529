//! The tokens of a document.

ghost use Rattle.std.specs.Prelude.{List, ℕ, ◌^◌, IfOk, IfSome, ◌≡◌, false, ◌+◌, ◌-◌, ◌≤◌, ◌<◌};
ghost use Rattle.std.specs.Prelude.{length, drop, take, map};
ghost use Rattle.std.specs.Option.{option_map};
ghost use Rattle.std.specs.List.{prefix_len};
ghost use Rattle.text_scan.specs.Bytes.{is_blank, is_comment_byte};
ghost use Rattle.owl_tokens.specs.Tokens.{is_word_byte, is_iri_byte, quote_step, string_len, piece};
ghost use Rattle.owl_tokens.specs.Tokens.{iri, quoted, front_piece, LiesWithin, lexeme, lexed};

use std::alloc::{AllocError, Global};

/// The kinds of tokens. A fault is what is no other token.
#[derive(Clone, Copy, Debug, PartialEq, Eq)]
pub enum TokenKind {
    Open,
    Close,
    Equal,
    Iri,
    Text,
    Word,
    Fault,
}

/// A token, the place of its first byte in the text and the one behind its last.
#[derive(Clone, Copy, Debug)]
pub struct Token {
    pub kind: TokenKind,
    pub start: usize,
    pub end: usize,
}

/// What a text begins with, and its length.
#[derive(Clone, Copy, Debug)]
pub(crate) enum Piece {
    Gap(usize),
    Token(TokenKind, usize),
    Fault,
}

/// What a byte of a string means.
#[derive(Clone, Copy, Debug)]
pub(crate) enum Quote {
    /// It closes the string.
    Closes,
    /// The string goes on, behind a backslash that counts or not.
    GoesOn(bool),
    /// It may not stand behind a backslash.
    Fault,
}

#[inline]
fn is_blank(byte: u8) -> bool
    ensures { result ≡ is_blank byte }
{
    matches!(byte, b' ' | b'\t' | b'\r' | b'\n')
}

#[inline]
fn is_word_byte(byte: u8) -> bool
    ensures { result ≡ is_word_byte byte }
{
    !matches!(
        byte,
        b' ' | b'\t' | b'\r' | b'\n' | b'#' | b'"' | b'<' | b'(' | b')' | b'='
    )
}

/// Where the comment that goes on at `from` ends.
fn comment_end(text: &[u8], from: usize) -> usize
    requires { from ≤ length text.now }
    ensures end { result ≡ from + prefix_len is_comment_byte (drop from text.now) }
    ensures within { result ≤ length text.now }
{
    let mut end = from;
    while end < text.len() && text[end] != b'\n' {
        end += 1;
    }
    end
}

/// Where the word that goes on at `from` ends.
fn word_end(text: &[u8], from: usize) -> usize
    requires { from ≤ length text.now }
    ensures end { result ≡ from + prefix_len is_word_byte (drop from text.now) }
    ensures within { result ≤ length text.now }
{
    let mut end = from;
    while end < text.len() && is_word_byte(text[end]) {
        end += 1;
    }
    end
}

/// Where the bytes that an IRI may have end.
fn iri_end(text: &[u8], from: usize) -> usize
    requires { from ≤ length text.now }
    ensures end { result ≡ from + prefix_len is_iri_byte (drop from text.now) }
    ensures within { result ≤ length text.now }
{
    let mut end = from;
    while end < text.len() && text[end] != b'>' && !is_blank(text[end]) {
        end += 1;
    }
    end
}

/// The IRI behind its first bracket, which stands before `from`.
fn iri_at(text: &[u8], from: usize) -> Piece
    requires { from ≤ length text.now }
    ensures piece { result ≡ iri (drop from text.now) }
    ensures within { LiesWithin (1 + (length text.now - from)) result }
{
    let end = iri_end(text, from);
    if end < text.len() && text[end] == b'>' {
        Piece::Token(TokenKind::Iri, end - from + 2)
    } else {
        Piece::Fault
    }
}

/// What a byte of a string means, behind a backslash that counts or not.
fn quote_step(escaped: bool, byte: u8) -> Quote
    ensures { result ≡ quote_step escaped byte }
{
    if escaped {
        if byte == b'"' || byte == b'\\' {
            Quote::GoesOn(false)
        } else {
            Quote::Fault
        }
    } else if byte == b'"' {
        Quote::Closes
    } else {
        Quote::GoesOn(byte == b'\\')
    }
}

/// How many bytes a string has from `from` on, behind its first quote.
fn string_len(text: &[u8], from: usize) -> Option<usize>
    requires { from ≤ length text.now }
    ensures len { result ≡ string_len false (drop from text.now) }
    ensures within { IfSome result (λ len. len ≤ length text.now - from) }
{
    let mut escaped = false;
    let mut place = from;
    while place < text.len() {
        match quote_step(escaped, text[place]) {
            Quote::Closes => return Some(place - from + 1),
            Quote::GoesOn(next) => escaped = next,
            Quote::Fault => return None,
        }
        place += 1;
    }
    None
}

/// The string behind its first quote, which stands before `from`.
fn string_at(text: &[u8], from: usize) -> Piece
    requires { from ≤ length text.now }
    ensures piece { result ≡ quoted (string_len false (drop from text.now)) }
    ensures within { LiesWithin (1 + (length text.now - from)) result }
{
    match string_len(text, from) {
        Some(len) => Piece::Token(TokenKind::Text, len + 1),
        None => Piece::Fault,
    }
}

/// What stands at a place of the text.
fn piece_at(text: &[u8], place: usize) -> Piece
    requires { place < length text.now }
    ensures piece { result ≡ front_piece (drop place text.now) }
    ensures within { LiesWithin (length text.now - place) result }
{
    match text[place] {
        b' ' | b'\t' | b'\r' | b'\n' => Piece::Gap(1),
        b'#' => Piece::Gap(comment_end(text, place + 1) - place),
        b'(' => Piece::Token(TokenKind::Open, 1),
        b')' => Piece::Token(TokenKind::Close, 1),
        b'=' => Piece::Token(TokenKind::Equal, 1),
        b'<' => iri_at(text, place + 1),
        b'"' => string_at(text, place + 1),
        _ => Piece::Token(TokenKind::Word, word_end(text, place + 1) - place),
    }
}

/// The bytes of a token.
pub fn text_of<'a>(text: &'a [u8], token: &Token) -> &'a [u8]
    ensures { result.now ≡ (lexeme text.now token.now).text }
{
    if token.start <= token.end && token.end <= text.len() {
        &text[token.start..token.end]
    } else if token.start <= token.end && token.start <= text.len() {
        &text[token.start..]
    } else {
        &text[..0]
    }
}

/// The token of so many bytes that starts there.
fn token_at(kind: TokenKind, start: usize, len: usize) -> Token
    requires { start + len < 2 ^ 64 }
    ensures { (text : List ℕ) → lexeme text result
        ≡ record { kind = kind; text = take len (drop start text); start = start } }
{
    Token {
        kind,
        start,
        end: start + len,
    }
}

/// The tokens of the text, up to the first fault.
pub fn scan(alloc: Global, text: &[u8]) -> Result<Vec<Token>, AllocError>
    ensures { IfOk result (λ tokens. map (lexeme text.now) tokens.items ≡ lexed 0 0 text.now) }
{
    let mut tokens = Vec::new(alloc);
    let mut place = 0;
    while place < text.len() {
        match piece_at(text, place) {
            Piece::Gap(len) => place += len,
            Piece::Token(kind, len) => {
                let token = token_at(kind, place, len);
                tokens.push(token)?;
                place += len;
            }
            Piece::Fault => {
                let token = token_at(TokenKind::Fault, place, 0);
                tokens.push(token)?;
                return Ok(tokens);
            }
        }
    }
    Ok(tokens)
}
