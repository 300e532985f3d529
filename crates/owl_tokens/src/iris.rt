//! IRIs, prefixes, and the names of entities.

ghost use Rattle.std.specs.Prelude.{◌≡◌, ◌≤◌, ◌++◌, ◌+◌, ◌==◌, [], IfOk, OnOk, length, drop, take};
ghost use Rattle.std.specs.Prelude.{map};
ghost use Rattle.std.specs.List.{prefix_len};
ghost use Rattle.std.specs.Option.{option_map};
ghost use Rattle.std.specs.Str.{bytes_eq};
ghost use Rattle.owl_tokens.specs.Tokens.{lexeme};
ghost use Rattle.owl_tokens.specs.Iris.{is_iri, is_no_colon, prefix_of, local_of, between_brackets};
ghost use Rattle.owl_tokens.specs.Iris.{is_own_prefix, own_prefixes, with_prefix, with_prefixes};
ghost use Rattle.owl_tokens.specs.Iris.{owl_iri, rdf_iri, rdfs_iri, xsd_iri, expanded, thing};
ghost use Rattle.owl_tokens.specs.Iris.{is_thing, is_cut, behind_cut, name_of};
ghost use Rattle.owl_tokens.specs.IriViews.{prefix_seen};

use crate::tables::Table;
use crate::tokens::{Token, TokenKind, text_of};
use std::alloc::{AllocError, Global};

/// Whether it is an IRI in brackets.
pub fn is_iri(kind: TokenKind) -> bool
    ensures { result ≡ is_iri kind }
{
    matches!(kind, TokenKind::Iri)
}

/// Where the first `:` stands, or the length.
fn colon(text: &[u8]) -> usize
    ensures place { result ≡ prefix_len is_no_colon text.now }
    ensures within { result ≤ length text.now }
{
    let mut end = 0;
    while end < text.len() && text[end] != b':' {
        end += 1;
    }
    end
}

/// What stands before the first `:`.
pub fn prefix_of(text: &[u8]) -> &[u8]
    ensures { result.now ≡ prefix_of text.now }
{
    &text[..colon(text)]
}

/// What stands behind the first `:`.
pub(crate) fn local_of<'a>(text: &'a [u8]) -> &'a [u8]
    ensures { result.now ≡ local_of text.now }
{
    let place = colon(text);
    if place < text.len() {
        &text[place + 1..]
    } else {
        &text[place..]
    }
}

/// An IRI without its brackets.
pub fn between_brackets<'a>(text: &'a [u8]) -> &'a [u8]
    ensures { result.now ≡ between_brackets text.now }
{
    if text.len() < 2 {
        &text[..0]
    } else {
        &text[1..text.len() - 1]
    }
}

fn is_own_prefix(name: &[u8]) -> bool
    ensures { result ≡ is_own_prefix name.now }
{
    name == b"owl".as_slice()
        || name == b"rdf".as_slice()
        || name == b"rdfs".as_slice()
        || name == b"xsd".as_slice()
}

/// Puts the prefixes that are known by themselves into an empty table.
#[tactic(auto, unfolding(crate::specs::Iris::owl_iri, crate::specs::Iris::rdf_iri, crate::specs::Iris::rdfs_iri, crate::specs::Iris::xsd_iri))]
fn put_own_prefixes(known: &mut Table) -> Result<(), AllocError>
    requires { known.old ≡ [] }
    ensures { OnOk result (known.new ≡ own_prefixes) }
{
    known.put(b"owl", b"http://www.w3.org/2002/07/owl#")?;
    known.put(b"rdf", b"http://www.w3.org/1999/02/22-rdf-syntax-ns#")?;
    known.put(b"rdfs", b"http://www.w3.org/2000/01/rdf-schema#")?;
    known.put(b"xsd", b"http://www.w3.org/2001/XMLSchema#")?;
    Ok(())
}

/// A declared prefix with its IRI.
#[derive(Clone, Copy, Debug)]
pub struct Prefix<'a> {
    pub name: &'a [u8],
    pub iri: &'a [u8],
}

/// Takes one more declaration into account.
fn declare_prefix(known: &mut Table, declared: &Prefix<'_>) -> Result<(), AllocError>
    ensures { OnOk result (known.new
        ≡ with_prefix known.old (declared.now.name.now, declared.now.iri.now)) }
{
    if is_own_prefix(declared.name) {
        return Ok(());
    }
    known.put(declared.name, declared.iri)
}

/// Puts the prefixes that are known by themselves and those that are declared into an empty table.
pub fn known_prefixes(known: &mut Table, declared: &[Prefix<'_>]) -> Result<(), AllocError>
    requires { known.old ≡ [] }
    ensures { OnOk result (known.new ≡ with_prefixes own_prefixes (map prefix_seen declared.now)) }
{
    put_own_prefixes(known)?;
    let mut place = 0;
    while place < declared.len() {
        declare_prefix(known, &declared[place])?;
        place += 1;
    }
    Ok(())
}

/// Whether the text is `p:`, with no `:` in p.
pub fn is_prefix_word(text: &[u8]) -> bool
    ensures { result ≡ (prefix_len is_no_colon text.now + 1 == length text.now) }
{
    colon(text) + 1 == text.len()
}

/// Whether the bytes of the two disjoint, one behind the other, are those of the whole.
fn joins(first: &[u8], second: &[u8], whole: &[u8]) -> bool
    ensures { result ≡ bytes_eq (first.now ++ second.now) whole.now }
{
    if whole.len() < first.len() {
        return false;
    }
    let front = &whole[..first.len()];
    let back = &whole[first.len()..];
    front == first && back == second
}

/// The IRI of owl:Thing.
const THING: &[u8] = b"http://www.w3.org/2002/07/owl#Thing";

/// Whether an entity is owl:Thing.
#[tactic(auto, unfolding(crate::specs::Iris::thing))]
pub fn is_thing(bytes: &[u8], known: &Table, token: &Token) -> bool
    ensures { result ≡ is_thing known.now (lexeme bytes.now token.now) }
{
    if is_iri(token.kind) {
        return between_brackets(text_of(bytes, token)) == THING;
    }
    match known.find(prefix_of(text_of(bytes, token))) {
        Some(iri) => joins(iri, local_of(text_of(bytes, token)), THING),
        None => false,
    }
}

/// The bytes of the two disjoint, one behind the other.
fn joined(alloc: Global, first: &[u8], second: &[u8]) -> Result<Vec<u8>, AllocError>
    ensures { IfOk result (λ whole. whole.items ≡ first.now ++ second.now) }
{
    let mut whole = Vec::from_slice(alloc, first)?;
    whole.extend_from_slice(second)?;
    Ok(whole)
}

/// The IRI that an entity stands for.
pub fn expanded(
    alloc: Global,
    bytes: &[u8],
    known: &Table,
    token: &Token,
) -> Result<Option<Vec<u8>>, AllocError>
    ensures { IfOk result (λ iri. option_map (λ bytes. bytes.items) iri
        ≡ expanded known.now (lexeme bytes.now token.now)) }
{
    if is_iri(token.kind) {
        let iri = Vec::from_slice(alloc, between_brackets(text_of(bytes, token)))?;
        return Ok(Some(iri));
    }
    match known.find(prefix_of(text_of(bytes, token))) {
        Some(iri) => {
            let whole = joined(alloc, iri, local_of(text_of(bytes, token)))?;
            Ok(Some(whole))
        }
        None => Ok(None),
    }
}

fn is_cut(byte: u8) -> bool
    ensures { result ≡ is_cut byte }
{
    byte == b'#' || byte == b'/'
}

/// What stands behind the last `#` or `/`.
fn behind_cut<'a>(text: &'a [u8]) -> &'a [u8]
    ensures { result.now ≡ behind_cut text.now text.now }
{
    let mut start = 0;
    let mut place = 0;
    while place < text.len() {
        if is_cut(text[place]) {
            start = place + 1;
        }
        place += 1;
    }
    &text[start..]
}

/// The name of an entity.
pub fn name_of<'a>(bytes: &'a [u8], token: &Token) -> &'a [u8]
    ensures { result.now ≡ name_of (lexeme bytes.now token.now) }
{
    if is_iri(token.kind) {
        behind_cut(between_brackets(text_of(bytes, token)))
    } else {
        local_of(text_of(bytes, token))
    }
}
