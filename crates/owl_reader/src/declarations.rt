//! What the declarations of a document say.

ghost use Rattle.std.specs.Prelude.{List, ℕ, ◌≡◌, Some, true, IfOk, OnOk, map, length};
ghost use Rattle.owl_tokens.specs.Tokens.{lexeme};
ghost use Rattle.owl_tokens.specs.Iris.{name_of};
ghost use Rattle.owl_reader.specs.Statements as s;
ghost use Rattle.owl_documents.specs.Views.{entity_seen};
ghost use Rattle.owl_documents.specs.ItemViews.{item_seen};
ghost use Rattle.owl_reader.specs.StatementViews.{Becomes, entities_seen};
ghost use Rattle.owl_reader.specs.VocabularyViews.{vocabulary_seen};

use crate::entities::{Entities, Flaw, SayFault, is_usable, name_under};
use dl_syntax::{Kind, Ontology};
use ontology_reader::{LineFault, Saying, add};
use owl_documents::{Entity, Item};
use owl_tokens::{Table, Token, expanded, name_of};
use std::alloc::{AllocError, Global};

/// The entities and the ontology of the declarations so far.
#[derive(Drop)]
pub(crate) struct Vocabulary {
    pub entities: Entities,
    pub ontology: Ontology,
}

/// Puts one more entity last.
fn put_entity(
    entities: &mut Entities,
    kind: Kind,
    iri: &[u8],
    name: &[u8],
) -> Result<(), AllocError>
    ensures { OnOk result (entities_seen entities.new
        ≡ s.with_entity kind iri.now name.now (entities_seen entities.old)) }
{
    match kind {
        Kind::Concept => entities.concepts.put(iri, name),
        Kind::Role => entities.roles.put(iri, name),
        Kind::Individual => entities.individuals.put(iri, name),
    }
}

/// Declares a new entity.
fn declare_new(
    bytes: &[u8],
    vocabulary: &mut Vocabulary,
    kind: Kind,
    token: &Token,
    iri: &[u8],
    close: usize,
) -> Result<(), SayFault>
    requires { s.is_usable (name_of (lexeme bytes.now token.now)) ≡ true }
    ensures { Becomes result (s.newly_declared (vocabulary_seen vocabulary.old) kind
        (lexeme bytes.now token.now) iri.now close) (vocabulary_seen vocabulary.new) }
{
    let name = name_of(bytes, token);
    if vocabulary.ontology.is_declared(name) {
        return Err(SayFault::Flaw(token.start, Flaw::NameTwice));
    }
    match add(&mut vocabulary.ontology, &Saying::Declares(kind, name)) {
        Ok(()) => match put_entity(&mut vocabulary.entities, kind, iri, name) {
            Ok(()) => Ok(()),
            Err(_) => Err(SayFault::Memory),
        },
        Err(LineFault::Kind(_)) => Err(SayFault::Flaw(close, Flaw::TooMany)),
        Err(LineFault::Memory) => Err(SayFault::Memory),
    }
}

/// Whether a repeated declaration gives its entity the name of another one.
fn is_given(bytes: &[u8], vocabulary: &Vocabulary, token: &Token, name: &[u8]) -> bool
    ensures { result ≡ s.is_given (vocabulary_seen vocabulary.now) (lexeme bytes.now token.now)
        name.now }
{
    let again = name_of(bytes, token);
    name != again && vocabulary.ontology.is_declared(again)
}

/// Declares an entity by the IRI that it stands for.
fn declare_iri(
    bytes: &[u8],
    vocabulary: &mut Vocabulary,
    kind: Kind,
    token: &Token,
    iri: &[u8],
    close: usize,
) -> Result<(), SayFault>
    ensures { Becomes result (s.iri_declared (vocabulary_seen vocabulary.old) kind
        (lexeme bytes.now token.now) close (Some iri.now)) (vocabulary_seen vocabulary.new) }
{
    if !is_usable(name_of(bytes, token)) {
        return Err(SayFault::Flaw(token.start, Flaw::BadName));
    }
    match name_under(&vocabulary.entities, kind, iri) {
        Some(name) => {
            if is_given(bytes, vocabulary, token, name) {
                Err(SayFault::Flaw(token.start, Flaw::NameTwice))
            } else {
                Ok(())
            }
        }
        None => declare_new(bytes, vocabulary, kind, token, iri, close),
    }
}

/// Declares what an item declares.
fn declare_item(
    alloc: Global,
    bytes: &[u8],
    known: &Table,
    vocabulary: &mut Vocabulary,
    item: &Item,
) -> Result<(), SayFault>
    ensures { Becomes result (s.item_declared known.now (vocabulary_seen vocabulary.old)
        (item_seen bytes.now item.now)) (vocabulary_seen vocabulary.new) }
{
    match item {
        Item::Declares(_, Entity::Refused(token), _) => {
            Err(SayFault::Flaw(token.start, Flaw::WrongKind))
        }
        Item::Declares(kind, Entity::Named(token), close) => {
            match expanded(alloc, bytes, known, token) {
                Ok(Some(iri)) => {
                    declare_iri(bytes, vocabulary, *kind, token, iri.as_slice(), *close)
                }
                Ok(None) => Err(SayFault::Flaw(token.start, Flaw::Unknown)),
                Err(_) => Err(SayFault::Memory),
            }
        }
        _ => Ok(()),
    }
}

/// Declares what the items declare.
pub(crate) fn declare_all(
    alloc: Global,
    bytes: &[u8],
    known: &Table,
    vocabulary: &mut Vocabulary,
    items: &[Item],
) -> Result<(), SayFault>
    ensures { Becomes result (s.all_declared known.now (vocabulary_seen vocabulary.old)
        (map (item_seen bytes.now) items.now)) (vocabulary_seen vocabulary.new) }
{
    let mut place = 0;
    'each: while place < items.len() {
        match declare_item(alloc, bytes, known, vocabulary, &items[place]) {
            Ok(()) => {}
            Err(fault) => return Err(fault),
        }
        place += 1;
    }
    Ok(())
}
