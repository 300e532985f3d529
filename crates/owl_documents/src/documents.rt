//! Documents: prefixes, and an ontology of items.

ghost use Rattle.std.specs.Prelude.{List, ℕ, ◌≡◌, ◌<◌, ◌≤◌, ◌++◌, [], IfOk, OnOk, length, map};
ghost use Rattle.std.specs.Prelude.{codes};
ghost use Rattle.owl_tokens.specs.Tokens.{lexeme};
ghost use Rattle.owl_tokens.specs.Tables.{Table as TableSeen};
ghost use Rattle.owl_tokens.specs.Iris.{own_prefixes, with_prefixes};
ghost use Rattle.owl_documents.specs.Terms as t;
ghost use Rattle.owl_documents.specs.Items as i;
ghost use Rattle.owl_documents.specs.Documents as d;
ghost use Rattle.owl_documents.specs.Views.{Gives};
ghost use Rattle.owl_documents.specs.ItemViews.{item_seen};
ghost use Rattle.owl_tokens.specs.IriViews.{prefix_seen};
ghost use Rattle.owl_documents.specs.DocumentViews.{document_seen};

use crate::groups::{Stop, close_first, is_equal, is_word, open_first};
use crate::items::{Item, closes, item_first};
use owl_tokens::{
    Prefix, Table, Token, between_brackets, is_iri, is_prefix_word, known_prefixes, prefix_of,
    text_of,
};
use std::alloc::Global;

/// A document: the prefixes that are known, and the items.
#[derive(Drop)]
pub struct Document {
    pub known: Table,
    pub items: Vec<Item>,
}

/// Whether the token is this word.
fn is_the_word(bytes: &[u8], text: &[u8], token: &Token) -> bool
    ensures { result ≡ d.is_the_word text.now (lexeme bytes.now token.now) }
{
    is_word(token.kind) && text_of(bytes, token) == text
}

/// The tokens behind a word and the opening parenthesis of the group that it heads.
fn headed_first<'b>(bytes: &[u8], text: &[u8], tokens: &'b [Token]) -> Result<&'b [Token], Stop>
    ensures given { Gives result (d.headed_first text.now (map (lexeme bytes.now) tokens.now))
        (λ rest. map (lexeme bytes.now) rest.now) }
    ensures shorter { IfOk result (λ rest. length rest.now < length tokens.now) }
{
    match tokens {
        [] => Err(Stop::End),
        [token, rest @ ..] => {
            if is_the_word(bytes, text, token) {
                open_first(rest)
            } else {
                Err(Stop::At(token.start))
            }
        }
    }
}

fn is_prefix_name(bytes: &[u8], token: &Token) -> bool
    ensures { result ≡ d.is_prefix_name (lexeme bytes.now token.now) }
{
    is_word(token.kind) && is_prefix_word(text_of(bytes, token))
}

/// A prefix before its equals sign.
fn name_first<'a, 'b>(bytes: &'a [u8], tokens: &'b [Token]) -> Result<(&'a [u8], &'b [Token]), Stop>
    ensures given { Gives result (d.name_first (map (lexeme bytes.now) tokens.now)) (λ found.
        (found.0.now, map (lexeme bytes.now) found.1.now)) }
    ensures shorter { IfOk result (λ found. length found.1.now < length tokens.now) }
{
    match tokens {
        [] => Err(Stop::End),
        [token, rest @ ..] => {
            if is_prefix_name(bytes, token) {
                Ok((prefix_of(text_of(bytes, token)), rest))
            } else {
                Err(Stop::At(token.start))
            }
        }
    }
}

/// The tokens behind an equals sign.
fn equal_first<'b>(tokens: &'b [Token]) -> Result<&'b [Token], Stop>
    ensures given { (bytes : List ℕ)
        → Gives result (d.equal_first (map (lexeme bytes) tokens.now)) (λ rest.
        map (lexeme bytes) rest.now) }
    ensures shorter { IfOk result (λ rest. length rest.now < length tokens.now) }
{
    match tokens {
        [] => Err(Stop::End),
        [token, rest @ ..] => {
            if is_equal(token.kind) {
                Ok(rest)
            } else {
                Err(Stop::At(token.start))
            }
        }
    }
}

/// An IRI.
fn iri_first<'a, 'b>(bytes: &'a [u8], tokens: &'b [Token]) -> Result<(&'a [u8], &'b [Token]), Stop>
    ensures given { Gives result (d.iri_first (map (lexeme bytes.now) tokens.now)) (λ found.
        (found.0.now, map (lexeme bytes.now) found.1.now)) }
    ensures shorter { IfOk result (λ found. length found.1.now < length tokens.now) }
{
    match tokens {
        [] => Err(Stop::End),
        [token, rest @ ..] => {
            if is_iri(token.kind) {
                Ok((between_brackets(text_of(bytes, token)), rest))
            } else {
                Err(Stop::At(token.start))
            }
        }
    }
}

/// `Prefix(p:=<iri>)`.
#[tactic(auto, unfolding(crate::specs::Documents::prefix_first))]
fn prefix_first<'a, 'b>(
    bytes: &'a [u8],
    tokens: &'b [Token],
) -> Result<(Prefix<'a>, &'b [Token]), Stop>
    ensures given { Gives result (d.prefix_first (map (lexeme bytes.now) tokens.now)) (λ found.
        (prefix_seen found.0, map (lexeme bytes.now) found.1.now)) }
    ensures shorter { IfOk result (λ found. length found.1.now < length tokens.now) }
{
    let inside = headed_first(bytes, b"Prefix", tokens)?;
    let (name, rest) = name_first(bytes, inside)?;
    let rest = equal_first(rest)?;
    let (iri, rest) = iri_first(bytes, rest)?;
    let (_, rest) = close_first(rest)?;
    Ok((Prefix { name, iri }, rest))
}

/// Whether the tokens go on with something else than a prefix.
fn no_prefix(bytes: &[u8], tokens: &[Token]) -> bool
    ensures { result ≡ d.no_prefix (map (lexeme bytes.now) tokens.now) }
{
    match tokens {
        [] => false,
        [token, ..] => !is_the_word(bytes, b"Prefix", token),
    }
}

/// The prefixes that the tokens begin with.
fn prefixes_first<'a, 'b>(
    alloc: Global,
    bytes: &'a [u8],
    tokens: &'b [Token],
) -> Result<(Vec<Prefix<'a>>, &'b [Token]), Stop>
    ensures given { Gives result (d.prefixes_first (map (lexeme bytes.now) tokens.now)) (λ found.
        (map prefix_seen found.0.items, map (lexeme bytes.now) found.1.now)) }
    ensures shorter { IfOk result (λ found. length found.1.now ≤ length tokens.now) }
{
    let mut prefixes = Vec::new(alloc);
    let mut rest = tokens;
    while !no_prefix(bytes, rest) {
        match prefix_first(bytes, rest) {
            Ok((prefix, next)) => {
                prefixes.push(prefix)?;
                rest = next;
            }
            Err(stop) => return Err(stop),
        }
    }
    Ok((prefixes, rest))
}

/// The items up to a closing parenthesis.
fn items_listed<'b>(
    alloc: Global,
    bytes: &[u8],
    known: &Table,
    tokens: &'b [Token],
) -> Result<(Vec<Item>, &'b [Token]), Stop>
    ensures given { Gives result (i.up_to_close (i.item_first known.now)
        (map (lexeme bytes.now) tokens.now)) (λ found.
        (map (item_seen bytes.now) found.0.items, map (lexeme bytes.now) found.1.now)) }
    ensures shorter { IfOk result (λ found. length found.1.now ≤ length tokens.now) }
{
    let mut items = Vec::new(alloc);
    let mut rest = tokens;
    'listed: while !closes(rest) {
        match item_first(alloc, bytes, known, rest) {
            Ok((item, next)) => {
                items.push(item)?;
                rest = next;
            }
            Err(stop) => return Err(stop),
        }
    }
    Ok((items, rest))
}

/// The tokens behind an IRI that may stand first.
fn behind_iri<'b>(tokens: &'b [Token]) -> &'b [Token]
    ensures given { (bytes : List ℕ)
        → map (lexeme bytes) result.now ≡ d.behind_iri (map (lexeme bytes) tokens.now) }
    ensures shorter { length result.now ≤ length tokens.now }
{
    match tokens {
        [token, rest @ ..] if is_iri(token.kind) => rest,
        _ => tokens,
    }
}

/// The tokens behind the IRIs that may stand first, two at most.
fn behind_iris<'b>(tokens: &'b [Token]) -> &'b [Token]
    ensures given { (bytes : List ℕ)
        → map (lexeme bytes) result.now ≡ d.behind_iris (map (lexeme bytes) tokens.now) }
    ensures shorter { length result.now ≤ length tokens.now }
{
    behind_iri(behind_iri(tokens))
}

/// The items of an ontology behind its prefixes, with nothing behind it.
#[tactic(auto, unfolding(crate::specs::Documents::ontology_read))]
fn ontology_items(
    alloc: Global,
    bytes: &[u8],
    known: &Table,
    tokens: &[Token],
) -> Result<Vec<Item>, Stop>
    ensures { Gives result (d.ontology_read known.now (map (lexeme bytes.now) tokens.now)) (λ items.
        record { known = known.now; items = map (item_seen bytes.now) items.items }) }
{
    let inside = headed_first(bytes, b"Ontology", tokens)?;
    let (items, rest) = items_listed(alloc, bytes, known, behind_iris(inside))?;
    let (_, rest) = close_first(rest)?;
    match rest {
        [] => Ok(items),
        [token, ..] => Err(Stop::At(token.start)),
    }
}

/// The document that the tokens are.
#[tactic(auto, unfolding(crate::specs::Documents::document_read))]
pub fn document_read(alloc: Global, bytes: &[u8], tokens: &[Token]) -> Result<Document, Stop>
    ensures { Gives result (d.document_read (map (lexeme bytes.now) tokens.now))
        (document_seen bytes.now) }
{
    let (prefixes, rest) = prefixes_first(alloc, bytes, tokens)?;
    let mut known = Table::new(alloc);
    known_prefixes(&mut known, prefixes.as_slice())?;
    let items = ontology_items(alloc, bytes, &known, rest)?;
    Ok(Document { known, items })
}
