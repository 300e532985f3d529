//! The name that a line is marked with.

ghost use Rattle.std.specs.Prelude.{◌≡◌, ◌+◌, ◌≤◌, length, drop, take};
ghost use Rattle.std.specs.List.{prefix_len};
ghost use Rattle.dl_syntax.specs.Names.{is_name_byte};
ghost use Rattle.text_scan.specs.Bytes.{is_blank};
ghost use Rattle.text_scan.specs.Lexing.{lexed_from};
ghost use Rattle.stream_report.specs.Told.{item_of};
ghost use Rattle.marked_lines.specs.Marks.{name_len as name_length, ends_mark as is_ended};
ghost use Rattle.marked_lines.specs.Marks.{mark_of as marking, says_nothing, option_marked};
ghost use Rattle.marked_lines.specs.Marks.{unmarked_is, belongs, belonging};

use dl_syntax::{continues_name, starts_name};
use stream_report::GivenLine;
use text_scan::{Next, next_token};

/// The byte that a mark begins with.
const MARK: u8 = b'@';

/// The most bytes that a name has.
const NAME_LIMIT: usize = 64;

/// The name that a line is marked with, and the rest of the line behind it.
#[derive(Clone, Copy, Debug)]
pub struct Mark<'a> {
    pub name: &'a [u8],
    pub rest: &'a [u8],
}

/// To which of several streams a line belongs.
#[derive(Clone, Copy, Debug)]
pub enum Owner<'a> {
    /// To the one that its mark names.
    Stream(Mark<'a>),
    /// To none, and it says nothing.
    Skipped,
    /// To none, since it has no mark.
    NoStream,
    /// To none, whatever it begins with: it has more bytes than a line may have.
    TooLong,
}

/// Where the name that goes on at `from` ends.
fn name_end(text: &[u8], from: usize) -> usize
    requires { from ≤ length text.now }
    ensures end { result ≡ from + prefix_len is_name_byte (drop from text.now) }
    ensures within { result ≤ length text.now }
{
    let mut end = from;
    while end < text.len() && continues_name(text[end]) {
        end += 1;
    }
    end
}

/// How long the name is that the text begins with.
fn name_len(text: &[u8]) -> usize
    ensures len { result ≡ name_length text.now }
    ensures within { result ≤ length text.now }
{
    if text.len() > 0 && starts_name(text[0]) {
        name_end(text, 1)
    } else {
        0
    }
}

/// Whether a mark ends before the text.
fn ends_mark(text: &[u8]) -> bool
    ensures { result ≡ is_ended text.now }
{
    match text.split_first() {
        Some((byte, _)) => matches!(*byte, b' ' | b'\t' | b'\r' | b'\n'),
        None => true,
    }
}

/// The mark of a line.
fn mark_of<'a>(line: &'a [u8]) -> Option<Mark<'a>>
    ensures { option_marked result ≡ marking line.now }
{
    let Some((first, text)) = line.split_first() else {
        return None;
    };
    if *first != MARK {
        return None;
    }
    let len = name_len(text);
    let rest = &text[len..];
    if len > 0 && len <= NAME_LIMIT && ends_mark(rest) {
        Some(Mark {
            name: &text[..len],
            rest,
        })
    } else {
        None
    }
}

/// To which stream a line without a mark belongs.
fn unmarked<'a>(line: &'a [u8]) -> Owner<'a>
    ensures { belonging result ≡ unmarked_is (says_nothing (lexed_from line.now 0)) }
{
    match next_token(line, 0) {
        Next::End => Owner::Skipped,
        Next::Token(_) => Owner::NoStream,
        Next::Fault(_) => Owner::NoStream,
    }
}

/// To which stream a line belongs.
pub fn owner_of<'a>(line: GivenLine<'a>) -> Owner<'a>
    ensures { belonging result ≡ belongs (item_of line.entry) }
{
    match line {
        GivenLine::TooLong => Owner::TooLong,
        GivenLine::Text(text) => match mark_of(text) {
            Some(mark) => Owner::Stream(mark),
            None => unmarked(text),
        },
    }
}
