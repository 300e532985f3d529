//! Entities, and what they are declared as.

ghost use Rattle.std.specs.Prelude.{List, ℕ, ◌≡◌, true, Some, [], IfOk, OnOk, map, length};
ghost use Rattle.std.specs.Option.{option_map};
ghost use Rattle.dl_syntax.specs.Names.{IsDeclarable};
ghost use Rattle.owl_tokens.specs.Tokens.{lexeme};
ghost use Rattle.owl_tokens.specs.Tables.{looked_up};
ghost use Rattle.owl_reader.specs.Statements as s;
ghost use Rattle.owl_documents.specs.Views.{entity_seen, role_seen, class_seen};
ghost use Rattle.owl_reader.specs.StatementViews.{Says, entities_seen, term_seen};
ghost use Rattle.ontology_reader.specs.Views as sayings;

use dl_syntax::{Kind, is_name};
use ontology_reader::{BasicTerm, RoleTerm};
use owl_documents::{Class, Entity, Role};
use owl_tokens::{Table, Token, expanded, name_of};
use std::alloc::{AllocError, AllocFailed, Global};

/// What is at fault in what a document says.
#[derive(Clone, Copy, Debug, PartialEq, Eq)]
pub(crate) enum Flaw {
    Unknown,
    BadName,
    NameTwice,
    WrongKind,
    TooMany,
}

/// Why a document says nothing.
#[derive(Clone, Copy, Debug, PartialEq, Eq)]
pub(crate) enum SayFault {
    /// The first flaw, at the token that starts there.
    Flaw(usize, Flaw),
    /// There is no memory.
    Memory,
}

impl From<AllocError> for SayFault {
    ghost use Rattle.owl_reader.specs.declared.entities.SayFault.TheVariants.{Memory};

    ghost from_gives = { λ _ e. e ≡ Memory };

    fn from(_refused: AllocError) -> SayFault {
        SayFault::Memory
    }
}

impl<T: Drop> From<AllocFailed<T>> for SayFault {
    ghost use Rattle.owl_reader.specs.declared.entities.SayFault.TheVariants.{Memory};

    ghost from_gives = { λ _ e. e ≡ Memory };

    fn from(_refused: AllocFailed<T>) -> SayFault {
        SayFault::Memory
    }
}

/// The IRIs that are declared as each kind, with the names of their entities.
#[derive(Drop)]
pub(crate) struct Entities {
    pub concepts: Table,
    pub roles: Table,
    pub individuals: Table,
}

/// A role, a basic concept, owl:Thing, or what has a partner by a role in a concept.
#[derive(Clone, Copy, Debug)]
pub(crate) enum Term<'a> {
    Role(RoleTerm<'a>),
    Basic(BasicTerm<'a>),
    Everything,
    Qualified(RoleTerm<'a>, &'a [u8]),
}

/// The name of the entity that is declared as the kind with the IRI.
pub(crate) fn name_under<'a>(entities: &'a Entities, kind: Kind, iri: &[u8]) -> Option<&'a [u8]>
    ensures { option_map (λ name. name.now) result
        ≡ looked_up iri.now (s.entities_of kind (entities_seen entities.now)) }
{
    match kind {
        Kind::Concept => entities.concepts.find(iri),
        Kind::Role => entities.roles.find(iri),
        Kind::Individual => entities.individuals.find(iri),
    }
}

fn is_entity(entities: &Entities, iri: &[u8]) -> bool
    ensures { result ≡ s.is_entity (entities_seen entities.now) iri.now }
{
    entities.concepts.find(iri).is_some()
        || entities.roles.find(iri).is_some()
        || entities.individuals.find(iri).is_some()
}

fn is_spelled(text: &[u8]) -> bool
    ensures { result ≡ s.is_name text.now }
{
    is_name(text)
}

fn is_reserved(text: &[u8]) -> bool
    ensures { result ≡ s.is_reserved text.now }
{
    text == b"some".as_slice() || text == b"inv".as_slice()
}

/// Whether an ontology may have the name.
#[tactic(auto, using(crate::proofs::NameLemmas::usable), unfolding(crate::specs::Statements::is_usable))]
pub(crate) fn is_usable(text: &[u8]) -> bool
    ensures same { result ≡ s.is_usable text.now }
    ensures free { result ≡ true → IsDeclarable text.now }
{
    is_spelled(text) && !is_reserved(text)
}

/// The name of an entity that is to be of this kind, by the IRI that it stands for.
fn iri_resolved<'a>(
    bytes: &[u8],
    entities: &'a Entities,
    kind: Kind,
    token: &Token,
    iri: &[u8],
) -> Result<&'a [u8], SayFault>
    ensures { Says result (s.iri_resolved (entities_seen entities.now) kind
        (lexeme bytes.now token.now) (Some iri.now)) (λ name. name.now) }
{
    if !is_entity(entities, iri) {
        return Err(SayFault::Flaw(token.start, Flaw::Unknown));
    }
    if !is_usable(name_of(bytes, token)) {
        return Err(SayFault::Flaw(token.start, Flaw::BadName));
    }
    match name_under(entities, kind, iri) {
        Some(name) => Ok(name),
        None => Err(SayFault::Flaw(token.start, Flaw::WrongKind)),
    }
}

/// The name of an entity that is to be of this kind.
pub(crate) fn resolved<'a>(
    alloc: Global,
    bytes: &[u8],
    known: &Table,
    entities: &'a Entities,
    kind: Kind,
    entity: &Entity,
) -> Result<&'a [u8], SayFault>
    ensures { Says result (s.resolved known.now (entities_seen entities.now) kind
        (entity_seen bytes.now entity.now)) (λ name. name.now) }
{
    match entity {
        Entity::Refused(token) => Err(SayFault::Flaw(token.start, Flaw::WrongKind)),
        Entity::Named(token) => match expanded(alloc, bytes, known, token) {
            Ok(Some(iri)) => iri_resolved(bytes, entities, kind, token, iri.as_slice()),
            Ok(None) => Err(SayFault::Flaw(token.start, Flaw::Unknown)),
            Err(_) => Err(SayFault::Memory),
        },
    }
}

/// A role with its name.
fn role_said<'a>(
    alloc: Global,
    bytes: &[u8],
    known: &Table,
    entities: &'a Entities,
    role: &Role,
) -> Result<RoleTerm<'a>, SayFault>
    ensures { Says result (s.role_said known.now (entities_seen entities.now)
        (role_seen bytes.now role.now)) sayings.role_seen }
{
    let name = resolved(alloc, bytes, known, entities, Kind::Role, &role.entity)?;
    Ok(RoleTerm {
        role: name,
        inverse: role.inverse,
    })
}

/// A role with its name, as a term.
pub(crate) fn role_term<'a>(
    alloc: Global,
    bytes: &[u8],
    known: &Table,
    entities: &'a Entities,
    role: &Role,
) -> Result<Term<'a>, SayFault>
    ensures { Says result (s.role_term known.now (entities_seen entities.now)
        (role_seen bytes.now role.now)) term_seen }
{
    let role = role_said(alloc, bytes, known, entities, role)?;
    Ok(Term::Role(role))
}

/// A class expression with its names.
pub(crate) fn class_term<'a>(
    alloc: Global,
    bytes: &[u8],
    known: &Table,
    entities: &'a Entities,
    class: &Class,
) -> Result<Term<'a>, SayFault>
    ensures { Says result (s.class_term known.now (entities_seen entities.now)
        (class_seen bytes.now class.now)) term_seen }
{
    match class {
        Class::Everything(_) => Ok(Term::Everything),
        Class::Only(entity) => {
            let name = resolved(alloc, bytes, known, entities, Kind::Concept, entity)?;
            Ok(Term::Basic(BasicTerm::Concept(name)))
        }
        Class::SomeOf(role) => {
            let role = role_said(alloc, bytes, known, entities, role)?;
            Ok(Term::Basic(BasicTerm::Existing(role)))
        }
        Class::SomeIn(_, role, entity) => {
            let role = role_said(alloc, bytes, known, entities, role)?;
            let name = resolved(alloc, bytes, known, entities, Kind::Concept, entity)?;
            Ok(Term::Qualified(role, name))
        }
    }
}
