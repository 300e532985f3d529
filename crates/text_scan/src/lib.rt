//! Tokens of a text of bytes.
#![tactic(auto)]

ghost use Rattle.std.specs.Prelude.{IfOk, Ok, Err, ◌≡◌, ◌+◌, ◌-◌, ◌≤◌, ◌<◌, ◌^◌, ◌||◌, ◌&&◌};
ghost use Rattle.std.specs.Prelude.{length, drop, take, map};
ghost use Rattle.std.specs.List.{prefix_len, All};
ghost use Rattle.text_scan.specs.declared.ScanFault.TheVariants.{Memory};
ghost use Rattle.dl_syntax.specs.Names.{is_name_byte};
ghost use Rattle.text_scan.specs.Lexing.{front_piece, named, variable, mark, LiesWithin, Scans};
ghost use Rattle.text_scan.specs.Lexing.{AreSlices, IsNext, lexeme, lexed, behind};
ghost use Rattle.text_scan.specs.Spelling.{IsSpelled};

mod expecting;
mod lines;

use dl_syntax::{continues_name, starts_name};
pub use expecting::{next_mark, next_name};
pub use lines::line_at;
use lines::line_end;
use std::alloc::{AllocError, Global};

#[derive(Clone, Copy, Debug, PartialEq, Eq)]
pub enum TokenKind {
    Name,
    Var,
    Open,
    Close,
    Square,
    Unsquare,
    Comma,
    Semi,
    Equal,
    Bar,
    Amp,
}

/// A token, its bytes in the text and the place of the first of them.
#[derive(Clone, Copy, Debug)]
pub struct Token<'a> {
    pub kind: TokenKind,
    pub text: &'a [u8],
    pub start: usize,
}

impl Token<'_> {
    /// The place behind the token.
    #[inline]
    pub fn end(&self) -> usize
        requires { behind self.now < 2 ^ 64 }
        ensures { result ≡ behind self.now }
    {
        self.start + self.text.len()
    }
}

#[derive(Clone, Copy, Debug, PartialEq, Eq)]
pub enum ScanFault {
    Bad { place: usize },
    Memory,
}

impl From<AllocError> for ScanFault {
    ghost from_gives = { λ _ e. e ≡ Memory };

    fn from(_refused: AllocError) -> ScanFault {
        ScanFault::Memory
    }
}

/// What a text begins with, and its length.
#[derive(Clone, Copy, Debug, PartialEq, Eq)]
enum Piece {
    Gap(usize),
    Word(TokenKind, usize),
    Fault,
}

/// The longest name or variable, without its mark.
const NAME_LIMIT: usize = 64;

/// Where the name that goes on at `from` ends.
#[inline]
fn name_end(text: &[u8], from: usize) -> usize
    requires { from ≤ length text.now }
    ensures end { result ≡ from + prefix_len is_name_byte (drop from text.now) }
    ensures within { result ≤ length text.now }
{
    let mut end = from;
    while end < text.len() && continues_name(text[end]) {
        end += 1;
    }
    end
}

/// The name that goes on at `from`, after so many bytes of its token.
#[inline]
fn named_at(text: &[u8], kind: TokenKind, before: usize, from: usize) -> Piece
    requires place { from ≤ length text.now }
    requires some { 1 ≤ before }
    requires few { before ≤ 2 }
    ensures piece { result ≡ named kind before (drop from text.now) }
    ensures within { LiesWithin (before + (length text.now - from)) result }
{
    let more = name_end(text, from) - from;
    if more < NAME_LIMIT {
        Piece::Word(kind, before + more)
    } else {
        Piece::Fault
    }
}

/// The variable whose mark stands before `from`.
fn variable_at(text: &[u8], from: usize) -> Piece
    requires { from ≤ length text.now }
    ensures piece { result ≡ variable (drop from text.now) }
    ensures within { LiesWithin (1 + (length text.now - from)) result }
{
    if from < text.len() && starts_name(text[from]) {
        named_at(text, TokenKind::Var, 2, from + 1)
    } else {
        Piece::Fault
    }
}

/// The token that is this byte alone.
#[inline]
fn mark_of(byte: u8) -> Piece
    ensures { result ≡ mark byte }
{
    match byte {
        b'(' => Piece::Word(TokenKind::Open, 1),
        b')' => Piece::Word(TokenKind::Close, 1),
        b'[' => Piece::Word(TokenKind::Square, 1),
        b']' => Piece::Word(TokenKind::Unsquare, 1),
        b',' => Piece::Word(TokenKind::Comma, 1),
        b';' => Piece::Word(TokenKind::Semi, 1),
        b'=' => Piece::Word(TokenKind::Equal, 1),
        b'|' => Piece::Word(TokenKind::Bar, 1),
        b'&' => Piece::Word(TokenKind::Amp, 1),
        _ => Piece::Fault,
    }
}

/// What stands at a place of the text.
#[inline]
fn piece_at(text: &[u8], place: usize) -> Piece
    requires { place < length text.now }
    ensures piece { result ≡ front_piece (drop place text.now) }
    ensures within { LiesWithin (length text.now - place) result }
{
    let byte = text[place];
    match byte {
        b'a'..=b'z' | b'A'..=b'Z' | b'_' => named_at(text, TokenKind::Name, 1, place + 1),
        b' ' | b'\t' | b'\r' | b'\n' => Piece::Gap(1),
        b'#' => Piece::Gap(line_end(text, place + 1) - place),
        b'?' => variable_at(text, place + 1),
        _ => mark_of(byte),
    }
}

/// The token of so many bytes that starts there.
#[inline]
fn token_at<'a>(text: &'a [u8], kind: TokenKind, start: usize, len: usize) -> Token<'a>
    requires { start + len ≤ length text.now }
    ensures { lexeme result
        ≡ record { kind = kind; text = take len (drop start text.now); start = start } }
{
    Token {
        kind,
        text: &text[start..start + len],
        start,
    }
}

/// What a text goes on with behind blanks and comments.
#[derive(Clone, Copy, Debug)]
pub enum Next<'a> {
    /// A token.
    Token(Token<'a>),
    /// The place of a byte that is in no token, blank or comment.
    Fault(usize),
    /// Nothing more.
    End,
}

/// What the text goes on with from a place on.
#[inline]
pub fn next_token<'a>(text: &'a [u8], from: usize) -> Next<'a>
    requires { from ≤ length text.now }
    ensures { IsNext text.now from result }
{
    let mut place = from;
    while place < text.len() {
        match piece_at(text, place) {
            Piece::Gap(len) => place += len,
            Piece::Word(kind, len) => return Next::Token(token_at(text, kind, place, len)),
            Piece::Fault => return Next::Fault(place),
        }
    }
    Next::End
}

/// The tokens from the front on, and the first byte at fault where one stops them.
#[derive(Debug, Drop)]
pub struct Front<'a> {
    pub tokens: Vec<Token<'a>>,
    pub fault: Option<usize>,
}

/// The tokens from the front of the text on.
pub fn scan_front<'a>(alloc: Global, text: &'a [u8]) -> Result<Front<'a>, AllocError>
    ensures { IfOk result (λ f. record { tokens = map lexeme f.tokens.items; fault = f.fault }
        ≡ lexed 0 0 text.now) }
{
    let mut tokens = Vec::new(alloc);
    let mut place = 0;
    loop {
        match next_token(text, place) {
            Next::Token(token) => {
                place = token.end();
                tokens.push(token)?;
            }
            Next::Fault(fault) => {
                return Ok(Front {
                    tokens,
                    fault: Some(fault),
                });
            }
            Next::End => return Ok(Front {
                tokens,
                fault: None,
            }),
        }
    }
}

/// The tokens of the text, or the first byte that is in no token, blank or comment.
pub fn scan<'a>(alloc: Global, text: &'a [u8]) -> Result<Vec<Token<'a>>, ScanFault>
    ensures exact { Scans (λ v. map lexeme v.items) result (lexed 0 0 text.now) }
    ensures slices { IfOk result (λ v. AreSlices text.now 0 (map lexeme v.items)) }
    ensures spelled { IfOk result (λ v. All IsSpelled (map lexeme v.items)) }
{
    let front = scan_front(alloc, text)?;
    match front.fault {
        None => Ok(front.tokens),
        Some(place) => Err(ScanFault::Bad { place }),
    }
}

#[cfg(test)]
mod tests;
