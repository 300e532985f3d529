//! The words of a line.

ghost use Rattle.std.specs.Prelude.{◌≡◌, IfOk, map};
ghost use Rattle.std.specs.Option.{option_map};
ghost use Rattle.text_scan.specs.Lexing.{lexed};
ghost use Rattle.ontology_reader.specs.Sayings.{word_of, is_name_kind, words_read};
ghost use Rattle.ontology_reader.specs.Views.{word_seen};

use std::alloc::{AllocError, Global};
use text_scan::{Next, TokenKind, next_token};

/// A word of a line. The words `some` and `inv` stand for no name.
#[derive(Clone, Copy, Debug)]
pub(crate) enum Word<'a> {
    Some,
    Inv,
    Name(&'a [u8]),
}

fn word_of<'a>(text: &'a [u8]) -> Word<'a>
    ensures { word_seen result ≡ word_of text.now }
{
    if text == b"some".as_slice() {
        Word::Some
    } else if text == b"inv".as_slice() {
        Word::Inv
    } else {
        Word::Name(text)
    }
}

fn is_name(kind: TokenKind) -> bool
    ensures { result ≡ is_name_kind kind }
{
    matches!(kind, TokenKind::Name)
}

/// The words of a line, and `None` where a token is no name or a byte is at fault.
pub(crate) fn words_in<'a>(
    alloc: Global,
    line: &'a [u8],
) -> Result<Option<Vec<Word<'a>>>, AllocError>
    ensures { IfOk result (λ found. option_map (λ words. map word_seen words.items) found
        ≡ words_read (lexed 0 0 line.now)) }
{
    let mut words = Vec::new(alloc);
    let mut place = 0;
    loop {
        match next_token(line, place) {
            Next::Token(token) => {
                if !is_name(token.kind) {
                    return Ok(None);
                }
                place = token.end();
                words.push(word_of(token.text))?;
            }
            Next::Fault(_) => return Ok(None),
            Next::End => return Ok(Some(words)),
        }
    }
}
