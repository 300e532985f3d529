//! The queries of a whole text.

ghost use Rattle.std.specs.Prelude.{◌≡◌, ◌≤◌, ◌==◌, count_by, length, Err};
ghost use Rattle.tcq_grammar.specs.Grammar.{IsFile};
ghost use Rattle.tcq_grammar.specs.Texts.{marks, symbols};
ghost use Rattle.tcq_reader.specs.Reading.{Reads, line_of, fault_of, most_bytes};

use crate::builder::Builder;
use crate::faults::{QueryFault, QueryKind, Stop};
use dl_syntax::Ontology;
use std::alloc::Global;
use tcq_grammar::{Checker, SyntaxFault, check};
use tcq_syntax::Query;
use text_scan::{Next, next_token};

/// The most bytes of a text.
const TEXT_LIMIT: usize = 4_194_304;

fn count_newlines(bytes: &[u8]) -> usize
    ensures count { result ≡ count_by (λ b. b == 10) bytes.now }
    ensures few { result ≤ length bytes.now }
{
    bytes.iter().filter(|byte| **byte == b'\n').count()
}

/// The line of the byte at the place, counted from 1.
fn line_of(bytes: &[u8], place: usize) -> u64
    requires { length bytes.now ≤ most_bytes }
    ensures { result ≡ line_of bytes.now place }
{
    let end = place.min(bytes.len());
    count_newlines(&bytes[..end]) as u64 + 1
}

/// This fault at the place.
fn fault_at(bytes: &[u8], place: usize, kind: QueryKind) -> QueryFault
    requires { length bytes.now ≤ most_bytes }
    ensures { result ≡ QueryFault.Bad (line_of bytes.now place) kind }
{
    QueryFault::Bad {
        line: line_of(bytes, place),
        kind,
    }
}

/// What the builder stopped at, with its line.
fn fault_of(bytes: &[u8], stop: Stop) -> QueryFault
    requires { length bytes.now ≤ most_bytes }
    ensures { result ≡ fault_of bytes.now stop }
{
    match stop {
        Stop::At(place, kind) => fault_at(bytes, place, kind),
        Stop::Memory => QueryFault::Memory,
    }
}

/// The queries of a text that is a file, or the first fault in it.
fn build_queries(alloc: Global, bytes: &[u8], ontology: &Ontology) -> Result<Vec<Query>, QueryFault>
    requires short { length bytes.now ≤ most_bytes }
    requires file { IsFile (symbols (marks bytes.now)) }
    ensures { Reads ontology.now bytes.now result }
{
    let mut checker = Checker::new(alloc);
    let mut builder = Builder::new(alloc);
    let mut place = 0;
    loop {
        match next_token(bytes, place) {
            Next::Token(token) => {
                let mode = checker.mode();
                if checker.step(&token)? {
                    if let Err(stop) = builder.act(ontology, mode, &token) {
                        return Err(fault_of(bytes, stop));
                    }
                }
                place = token.start + token.text.len();
            }
            _ => return Ok(builder.into_queries()),
        }
    }
}

/// The queries of the text over the ontology, or its first fault: `TooLong` before all, then
/// `BadQuery` in the whole text, then what is wrong with a name, a variable, an atom or the size of
/// a query by its place in the text.
pub fn read_queries(
    alloc: Global,
    bytes: &[u8],
    ontology: &Ontology,
) -> Result<Vec<Query>, QueryFault>
    ensures { Reads ontology.now bytes.now result }
{
    if bytes.len() > TEXT_LIMIT {
        return Err(QueryFault::Bad {
            line: 0,
            kind: QueryKind::TooLong,
        });
    }
    match check(alloc, bytes) {
        Ok(()) => build_queries(alloc, bytes, ontology),
        Err(SyntaxFault::At(place)) => Err(fault_at(bytes, place, QueryKind::BadQuery)),
        Err(SyntaxFault::End) => {
            let last = bytes.len().saturating_sub(1);
            Err(fault_at(bytes, last, QueryKind::BadQuery))
        }
        Err(SyntaxFault::Memory) => Err(QueryFault::Memory),
    }
}
