//! The ontology of a whole document.

ghost use Rattle.std.specs.Prelude.{List, ℕ, ◌≡◌, ◌≤◌, Ok, None, Some, IfOk, OnOk, map, length};
ghost use Rattle.std.specs.Prelude.{take};
ghost use Rattle.owl_tokens.specs.Tokens.{lexeme, lexed};
ghost use Rattle.owl_documents.specs.Documents as d;
ghost use Rattle.owl_documents.specs.DocumentViews.{document_seen};
ghost use Rattle.owl_documents.specs.ItemViews.{item_seen};
ghost use Rattle.owl_reader.specs.Refusals.{first_of, in_item};
ghost use Rattle.owl_reader.specs.StatementViews.{Says, Becomes};
ghost use Rattle.owl_reader.specs.VocabularyViews.{vocabulary_seen};
ghost use Rattle.owl_reader.specs.Reading as reading;

use crate::axioms::add_axioms;
use crate::declarations::{Vocabulary, declare_all};
use crate::entities::{Entities, Flaw, SayFault};
use crate::refusals::first_refused;
use dl_syntax::Ontology;
use owl_documents::{Document, Item, Stop, document_read};
use owl_tokens::{Table, Token, scan, text_of};
use short_names::ShortName;
use std::alloc::Global;

/// What is at fault in a document.
#[derive(Clone, Copy, Debug, PartialEq, Eq)]
pub enum OwlKind {
    /// The text has more than 4,194,304 bytes.
    TooLong,
    /// The token may not stand there.
    BadOwl,
    /// The token, cut to 64 bytes, is outside of the profile.
    Unsupported(ShortName),
    /// The prefix or the entity isn't declared.
    Unknown,
    /// The name is none that an ontology may have.
    BadName,
    /// The name is another entity's.
    NameTwice,
    /// The entity is declared as another kind.
    WrongKind,
    /// There are as many names of the kind, inclusions or clashes as an ontology may have.
    TooMany,
}

/// Why a document gives no ontology.
#[derive(Clone, Copy, Debug, PartialEq, Eq)]
pub enum OwlFault {
    /// The first fault, with its line, counted from 1; a text that is too long is at fault at line
    /// 0.
    Bad { line: u64, kind: OwlKind },
    /// There is no memory.
    Memory,
}

/// The most bytes of a text.
const BYTE_LIMIT: usize = 4_194_304;

/// How many lines end in the text.
fn line_ends(text: &[u8]) -> usize
    ensures ends { result ≡ reading.line_ends text.now }
    ensures few { result ≤ length text.now }
{
    text.iter().filter(|byte| **byte == b'\n').count()
}

/// The line of a place, counted from 1.
fn line_of(text: &[u8], place: usize) -> u64
    ensures { result ≡ reading.line_of text.now place }
{
    if place <= text.len() {
        line_ends(&text[..place]) as u64 + 1
    } else {
        line_ends(text) as u64 + 1
    }
}

/// The line of the text's last byte, and 1 where it has none.
fn last_line(text: &[u8]) -> u64
    ensures { result ≡ reading.stop_line text.now None }
{
    if text.is_empty() {
        line_of(text, 0)
    } else {
        line_of(text, text.len() - 1)
    }
}

fn kind_of(flaw: Flaw) -> OwlKind
    ensures { reading.told result ≡ reading.fault_of flaw }
{
    match flaw {
        Flaw::Unknown => OwlKind::Unknown,
        Flaw::BadName => OwlKind::BadName,
        Flaw::NameTwice => OwlKind::NameTwice,
        Flaw::WrongKind => OwlKind::WrongKind,
        Flaw::TooMany => OwlKind::TooMany,
    }
}

/// The fault of a token that isn't taken.
fn unsupported(text: &[u8], token: &Token) -> OwlFault
    ensures { reading.Faults result (reading.line_of text.now token.now.start)
        (take 64 (lexeme text.now token.now).text) }
{
    OwlFault::Bad {
        line: line_of(text, token.start),
        kind: OwlKind::Unsupported(ShortName::new(text_of(text, token))),
    }
}

/// Nothing declared.
fn no_vocabulary(alloc: Global) -> Vocabulary
    ensures { vocabulary_seen result ≡ reading.no_vocabulary }
{
    Vocabulary {
        entities: Entities {
            concepts: Table::new(alloc),
            roles: Table::new(alloc),
            individuals: Table::new(alloc),
        },
        ontology: Ontology::new(alloc),
    }
}

/// Declares and adds what the items say.
#[tactic(auto, unfolding(crate::specs::Reading::items_say))]
fn add_items(
    alloc: Global,
    text: &[u8],
    known: &Table,
    vocabulary: &mut Vocabulary,
    items: &[Item],
) -> Result<(), SayFault>
    ensures { Becomes result (reading.items_say known.now (vocabulary_seen vocabulary.old)
        (map (item_seen text.now) items.now)) vocabulary.new.ontology }
{
    match declare_all(alloc, text, known, vocabulary, items) {
        Ok(()) => add_axioms(
            alloc,
            text,
            known,
            &vocabulary.entities,
            &mut vocabulary.ontology,
            items,
        ),
        Err(fault) => Err(fault),
    }
}

/// The ontology that the items say, where all of it is taken.
fn items_say(
    alloc: Global,
    text: &[u8],
    known: &Table,
    items: &[Item],
) -> Result<Ontology, SayFault>
    ensures { Says result (reading.items_say known.now reading.no_vocabulary
        (map (item_seen text.now) items.now)) (λ ontology. ontology) }
{
    let mut vocabulary = no_vocabulary(alloc);
    match add_items(alloc, text, known, &mut vocabulary, items) {
        Ok(()) => Ok(vocabulary.ontology),
        Err(fault) => Err(fault),
    }
}

/// The fault of what is said.
fn flawed(text: &[u8], fault: SayFault) -> OwlFault
    ensures { reading.IsFlawed text.now fault result }
{
    match fault {
        SayFault::Flaw(place, flaw) => OwlFault::Bad {
            line: line_of(text, place),
            kind: kind_of(flaw),
        },
        SayFault::Memory => OwlFault::Memory,
    }
}

/// The ontology of the items, or what isn't taken in them.
fn taken_says(
    alloc: Global,
    text: &[u8],
    known: &Table,
    items: &[Item],
) -> Result<Ontology, OwlFault>
    ensures { reading.Tells result (reading.taken_says text.now
        (record { known = known.now; items = map (item_seen text.now) items.now })
        (first_of in_item (map (item_seen text.now) items.now))) }
{
    match first_refused(items) {
        Some(token) => Err(unsupported(text, &token)),
        None => match items_say(alloc, text, known, items) {
            Ok(ontology) => Ok(ontology),
            Err(fault) => Err(flawed(text, fault)),
        },
    }
}

/// The ontology of a document, or its first fault behind those of its syntax.
fn document_says(alloc: Global, text: &[u8], document: &Document) -> Result<Ontology, OwlFault>
    ensures { reading.Tells result (reading.read_says text.now
        (Ok (document_seen text.now document.now))) }
{
    taken_says(alloc, text, &document.known, document.items.as_slice())
}

/// The ontology that an OWL 2 document in functional-style syntax stands for, or its first fault.
#[tactic(auto, unfolding(crate::specs::Reading::text_says))]
pub fn read_owl(alloc: Global, bytes: &[u8]) -> Result<Ontology, OwlFault>
    ensures { reading.Reads result bytes.now }
{
    if bytes.len() > BYTE_LIMIT {
        return Err(OwlFault::Bad {
            line: 0,
            kind: OwlKind::TooLong,
        });
    }
    let Ok(tokens) = scan(alloc, bytes) else {
        return Err(OwlFault::Memory);
    };
    match document_read(alloc, bytes, tokens.as_slice()) {
        Ok(document) => document_says(alloc, bytes, &document),
        Err(Stop::At(place)) => Err(OwlFault::Bad {
            line: line_of(bytes, place),
            kind: OwlKind::BadOwl,
        }),
        Err(Stop::End) => Err(OwlFault::Bad {
            line: last_line(bytes),
            kind: OwlKind::BadOwl,
        }),
        Err(Stop::Memory) => Err(OwlFault::Memory),
    }
}
