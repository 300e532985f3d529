//! The facts that a line writes, by their names.

ghost use Rattle.std.specs.Prelude.{◌≡◌, ◌≤◌, length};
ghost use Rattle.text_scan.specs.Expecting.{IsMark};
ghost use Rattle.snapshot_reader.specs.Cursor.{IsTokenOf, IsNextFact, IsFirstArgument};
ghost use Rattle.snapshot_reader.specs.Cursor.{IsSecondArgument};

use text_scan::{Next, TokenKind, next_mark, next_name, next_token};

/// A fact by the names of its predicate and of its arguments.
#[derive(Clone, Copy, Debug)]
pub(crate) enum Written<'a> {
    Unary(&'a [u8], &'a [u8]),
    Binary(&'a [u8], &'a [u8], &'a [u8]),
}

/// What a line of facts goes on with.
#[derive(Clone, Copy, Debug)]
pub(crate) enum NextFact<'a> {
    /// A fact, and the place behind it.
    Fact(Written<'a>, usize),
    /// Nothing more.
    End,
    /// Something else.
    Malformed,
}

/// The text of the next token and the place behind it, if the token is a name.
#[inline]
pub(crate) fn name_of<'a>(line: &'a [u8], from: usize) -> Option<(&'a [u8], usize)>
    requires { from ≤ length line.now }
    ensures { IsTokenOf TokenKind.Name line.now from result }
{
    match next_name(line, from) {
        Some(token) => Some((token.text, token.end())),
        None => None,
    }
}

/// The text of the next token and the place behind it, if the token is this mark.
#[inline]
fn mark_of<'a>(line: &'a [u8], from: usize, kind: TokenKind) -> Option<(&'a [u8], usize)>
    requires place { from ≤ length line.now }
    requires mark { IsMark kind }
    ensures { IsTokenOf kind line.now from result }
{
    match next_mark(line, from, kind) {
        Some(token) => Some((token.text, token.end())),
        None => None,
    }
}

/// What a fact goes on with behind `,`.
#[inline]
fn second_argument<'a>(
    line: &'a [u8],
    predicate: &'a [u8],
    first: &'a [u8],
    from: usize,
) -> NextFact<'a>
    requires { from ≤ length line.now }
    ensures { IsSecondArgument predicate.now first.now line.now from result }
{
    let Some((second, end)) = name_of(line, from) else {
        return NextFact::Malformed;
    };
    match mark_of(line, end, TokenKind::Close) {
        Some((_, end)) => NextFact::Fact(Written::Binary(predicate, first, second), end),
        None => NextFact::Malformed,
    }
}

/// What a fact goes on with behind `(`.
#[inline]
fn first_argument<'a>(line: &'a [u8], predicate: &'a [u8], from: usize) -> NextFact<'a>
    requires { from ≤ length line.now }
    ensures { IsFirstArgument predicate.now line.now from result }
{
    let Some((first, end)) = name_of(line, from) else {
        return NextFact::Malformed;
    };
    if let Some((_, end)) = mark_of(line, end, TokenKind::Close) {
        return NextFact::Fact(Written::Unary(predicate, first), end);
    }
    match mark_of(line, end, TokenKind::Comma) {
        Some((_, end)) => second_argument(line, predicate, first, end),
        None => NextFact::Malformed,
    }
}

/// What a line of facts goes on with.
#[inline]
pub(crate) fn next_fact<'a>(line: &'a [u8], from: usize) -> NextFact<'a>
    requires { from ≤ length line.now }
    ensures { IsNextFact line.now from result }
{
    let Some((predicate, end)) = name_of(line, from) else {
        return end_of_facts(line, from);
    };
    match mark_of(line, end, TokenKind::Open) {
        Some((_, end)) => first_argument(line, predicate, end),
        None => NextFact::Malformed,
    }
}

/// What a line of facts goes on with where no name follows.
#[cold]
fn end_of_facts<'a>(line: &'a [u8], from: usize) -> NextFact<'a>
    requires place { from ≤ length line.now }
    requires unnamed { IsTokenOf TokenKind.Name line.now from None }
    ensures { IsNextFact line.now from result }
{
    match next_token(line, from) {
        Next::Token(_) => NextFact::Malformed,
        Next::Fault(_) => NextFact::Malformed,
        Next::End => NextFact::End,
    }
}
