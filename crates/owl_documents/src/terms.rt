//! Entities, roles and classes, as they are written.

ghost use Rattle.std.specs.Prelude.{List, ℕ, ◌≡◌, ◌<◌, ◌≤◌, IfOk, length, map};
ghost use Rattle.std.specs.Option.{option_map};
ghost use Rattle.owl_tokens.specs.Tokens.{lexeme};
ghost use Rattle.owl_documents.specs.Terms as t;
ghost use Rattle.owl_documents.specs.Views.{Gives, first_seen, room_behind, entity_seen, role_seen};
ghost use Rattle.owl_documents.specs.Views.{class_seen};

use crate::groups::{Stop, close_first, group_end, group_of};
use owl_tokens::{Head, Table, Token, TokenKind, head_of, is_thing, text_of};

/// What a term begins with, and the tokens behind the entity or the opening parenthesis.
#[derive(Clone, Copy, Debug)]
pub(crate) enum First<'b> {
    Entity(Token, &'b [Token]),
    Group(Head, Token, &'b [Token]),
}

/// An entity, or the token of what stands in its place and isn't taken.
#[derive(Clone, Copy, Debug)]
pub enum Entity {
    Named(Token),
    Refused(Token),
}

/// A role or its inverse.
#[derive(Clone, Copy, Debug)]
pub struct Role {
    pub entity: Entity,
    pub inverse: bool,
}

/// A class expression. Those that may not stand everywhere have the token that would be at fault.
#[derive(Clone, Copy, Debug)]
pub enum Class {
    Everything(Token),
    Only(Entity),
    SomeOf(Role),
    SomeIn(Token, Role, Entity),
}

fn has_colon(text: &[u8]) -> bool
    ensures { result ≡ t.has_colon text.now }
{
    text.iter().any(|byte| *byte == b':')
}

/// What a term begins with.
#[tactic(auto, unfolding(crate::specs::Terms::term_first))]
pub(crate) fn term_first<'b>(bytes: &[u8], tokens: &'b [Token]) -> Result<First<'b>, Stop>
    ensures given { Gives result (t.term_first (map (lexeme bytes.now) tokens.now))
        (first_seen bytes.now) }
    ensures shorter { IfOk result (λ first. room_behind first < length tokens.now) }
{
    match tokens {
        [] => Err(Stop::End),
        [token, rest @ ..] => match token.kind {
            TokenKind::Iri => Ok(First::Entity(*token, rest)),
            TokenKind::Word => match group_of(rest) {
                Some(inside) => Ok(First::Group(head_of(text_of(bytes, token)), *token, inside)),
                None => {
                    if has_colon(text_of(bytes, token)) {
                        Ok(First::Entity(*token, rest))
                    } else {
                        Err(Stop::At(token.start))
                    }
                }
            },
            _ => Err(Stop::At(token.start)),
        },
    }
}

/// The tokens behind any term.
fn term_end<'b>(first: First<'b>) -> Result<&'b [Token], Stop>
    ensures given { (bytes : List ℕ)
        → Gives result (t.term_end (first_seen bytes first.entry)) (λ rest.
        map (lexeme bytes) rest.now) }
    ensures shorter { IfOk result (λ rest. length rest.now ≤ room_behind first.entry) }
{
    match first {
        First::Entity(_, rest) => Ok(rest),
        First::Group(_, _, inside) => group_end(inside),
    }
}

/// The tokens behind any term but owl:Thing.
fn filler_end<'b>(bytes: &[u8], known: &Table, first: First<'b>) -> Result<&'b [Token], Stop>
    ensures given { Gives result (t.filler_end known.now (first_seen bytes.now first.entry))
        (λ rest. map (lexeme bytes.now) rest.now) }
    ensures shorter { IfOk result (λ rest. length rest.now ≤ room_behind first.entry) }
{
    match first {
        First::Entity(token, rest) => {
            if is_thing(bytes, known, &token) {
                Err(Stop::At(token.start))
            } else {
                Ok(rest)
            }
        }
        First::Group(_, _, inside) => group_end(inside),
    }
}

/// The tokens behind a qualified expression, from behind `ObjectSomeValuesFrom(` on.
#[tactic(auto, unfolding(crate::specs::Terms::qualified_end))]
fn qualified_end<'b>(bytes: &[u8], known: &Table, inside: &'b [Token]) -> Result<&'b [Token], Stop>
    ensures given { Gives result (t.qualified_end known.now (map (lexeme bytes.now) inside.now))
        (λ rest. map (lexeme bytes.now) rest.now) }
    ensures shorter { IfOk result (λ rest. length rest.now ≤ length inside.now) }
{
    let role = term_first(bytes, inside)?;
    let behind = term_end(role)?;
    let filler = term_first(bytes, behind)?;
    let rest = filler_end(bytes, known, filler)?;
    let (_, rest) = close_first(rest)?;
    Ok(rest)
}

/// The tokens behind a group that isn't taken where it stands.
pub(crate) fn refused_end<'b>(
    bytes: &[u8],
    known: &Table,
    head: Head,
    token: &Token,
    inside: &'b [Token],
) -> Result<&'b [Token], Stop>
    ensures given { Gives result (t.refused_end known.now head (lexeme bytes.now token.now)
        (map (lexeme bytes.now) inside.now)) (λ rest. map (lexeme bytes.now) rest.now) }
    ensures shorter { IfOk result (λ rest. length rest.now ≤ length inside.now) }
{
    match head {
        Head::Other => group_end(inside),
        Head::ObjectSomeValuesFrom => qualified_end(bytes, known, inside),
        _ => Err(Stop::At(token.start)),
    }
}

/// An entity by what it begins with.
fn entity_from<'b>(
    bytes: &[u8],
    known: &Table,
    first: First<'b>,
) -> Result<(Entity, &'b [Token]), Stop>
    ensures given { Gives result (t.entity_from known.now (first_seen bytes.now first.entry))
        (λ found. (entity_seen bytes.now found.0, map (lexeme bytes.now) found.1.now)) }
    ensures shorter { IfOk result (λ found. length found.1.now ≤ room_behind first.entry) }
{
    match first {
        First::Entity(token, rest) => {
            if is_thing(bytes, known, &token) {
                Ok((Entity::Refused(token), rest))
            } else {
                Ok((Entity::Named(token), rest))
            }
        }
        First::Group(head, token, inside) => {
            let rest = refused_end(bytes, known, head, &token, inside)?;
            Ok((Entity::Refused(token), rest))
        }
    }
}

/// The entity that the tokens begin with.
#[tactic(auto, unfolding(crate::specs::Terms::entity_first))]
pub(crate) fn entity_first<'b>(
    bytes: &[u8],
    known: &Table,
    tokens: &'b [Token],
) -> Result<(Entity, &'b [Token]), Stop>
    ensures given { Gives result (t.entity_first known.now (map (lexeme bytes.now) tokens.now))
        (λ found. (entity_seen bytes.now found.0, map (lexeme bytes.now) found.1.now)) }
    ensures shorter { IfOk result (λ found. length found.1.now < length tokens.now) }
{
    let first = term_first(bytes, tokens)?;
    entity_from(bytes, known, first)
}

/// `ObjectInverseOf` behind its opening parenthesis.
fn inverse_from<'b>(
    bytes: &[u8],
    known: &Table,
    inside: &'b [Token],
) -> Result<(Role, &'b [Token]), Stop>
    ensures given { Gives result (t.inverse_from known.now (map (lexeme bytes.now) inside.now))
        (λ found. (role_seen bytes.now found.0, map (lexeme bytes.now) found.1.now)) }
    ensures shorter { IfOk result (λ found. length found.1.now ≤ length inside.now) }
{
    let (entity, rest) = entity_first(bytes, known, inside)?;
    let (_, rest) = close_first(rest)?;
    Ok((
        Role {
            entity,
            inverse: true,
        },
        rest,
    ))
}

/// A role by its entity.
fn plain_role<'b>(
    bytes: &[u8],
    known: &Table,
    first: First<'b>,
) -> Result<(Role, &'b [Token]), Stop>
    ensures given { Gives result (t.plain_role known.now (first_seen bytes.now first.entry))
        (λ found. (role_seen bytes.now found.0, map (lexeme bytes.now) found.1.now)) }
    ensures shorter { IfOk result (λ found. length found.1.now ≤ room_behind first.entry) }
{
    let (entity, rest) = entity_from(bytes, known, first)?;
    Ok((
        Role {
            entity,
            inverse: false,
        },
        rest,
    ))
}

/// The role that the tokens begin with.
#[tactic(auto, unfolding(crate::specs::Terms::role_first))]
pub(crate) fn role_first<'b>(
    bytes: &[u8],
    known: &Table,
    tokens: &'b [Token],
) -> Result<(Role, &'b [Token]), Stop>
    ensures given { Gives result (t.role_first known.now (map (lexeme bytes.now) tokens.now))
        (λ found. (role_seen bytes.now found.0, map (lexeme bytes.now) found.1.now)) }
    ensures shorter { IfOk result (λ found. length found.1.now < length tokens.now) }
{
    match term_first(bytes, tokens)? {
        First::Group(Head::ObjectInverseOf, _, inside) => inverse_from(bytes, known, inside),
        first => plain_role(bytes, known, first),
    }
}

/// A class by what it begins with, and `None` for owl:Thing.
fn filler_from<'b>(
    bytes: &[u8],
    known: &Table,
    first: First<'b>,
) -> Result<(Option<Entity>, &'b [Token]), Stop>
    ensures given { Gives result (t.filler_from known.now (first_seen bytes.now first.entry))
        (λ found. (
          option_map (entity_seen bytes.now) found.0,
          map (lexeme bytes.now)
              found.1.now,
        )) }
    ensures shorter { IfOk result (λ found. length found.1.now ≤ room_behind first.entry) }
{
    match first {
        First::Entity(token, rest) => {
            if is_thing(bytes, known, &token) {
                Ok((None, rest))
            } else {
                Ok((Some(Entity::Named(token)), rest))
            }
        }
        First::Group(head, token, inside) => {
            let rest = refused_end(bytes, known, head, &token, inside)?;
            Ok((Some(Entity::Refused(token)), rest))
        }
    }
}

/// The class that the tokens begin with, and `None` for owl:Thing.
#[tactic(auto, unfolding(crate::specs::Terms::filler_first))]
fn filler_first<'b>(
    bytes: &[u8],
    known: &Table,
    tokens: &'b [Token],
) -> Result<(Option<Entity>, &'b [Token]), Stop>
    ensures given { Gives result (t.filler_first known.now (map (lexeme bytes.now) tokens.now))
        (λ found. (
          option_map (entity_seen bytes.now) found.0,
          map (lexeme bytes.now)
              found.1.now,
        )) }
    ensures shorter { IfOk result (λ found. length found.1.now < length tokens.now) }
{
    let first = term_first(bytes, tokens)?;
    filler_from(bytes, known, first)
}

/// What has a partner by a role, in a class or anywhere.
fn existing(token: &Token, role: Role, filler: Option<Entity>) -> Class
    ensures { (bytes : List ℕ) → class_seen bytes result
        ≡ t.existing (lexeme bytes token.now) (role_seen bytes role)
        (option_map (entity_seen bytes) filler) }
{
    match filler {
        None => Class::SomeOf(role),
        Some(filler) => Class::SomeIn(*token, role, filler),
    }
}

/// `ObjectSomeValuesFrom` behind its opening parenthesis.
fn existing_from<'b>(
    bytes: &[u8],
    known: &Table,
    token: &Token,
    inside: &'b [Token],
) -> Result<(Class, &'b [Token]), Stop>
    ensures given { Gives result (t.existing_from known.now (lexeme bytes.now token.now)
        (map (lexeme bytes.now) inside.now)) (λ found.
        (class_seen bytes.now found.0, map (lexeme bytes.now) found.1.now)) }
    ensures shorter { IfOk result (λ found. length found.1.now ≤ length inside.now) }
{
    let (role, rest) = role_first(bytes, known, inside)?;
    let (filler, rest) = filler_first(bytes, known, rest)?;
    let (_, rest) = close_first(rest)?;
    Ok((existing(token, role, filler), rest))
}

/// A class expression without a role, by what it begins with.
fn plain_class<'b>(
    bytes: &[u8],
    known: &Table,
    first: First<'b>,
) -> Result<(Class, &'b [Token]), Stop>
    ensures given { Gives result (t.plain_class known.now (first_seen bytes.now first.entry))
        (λ found. (class_seen bytes.now found.0, map (lexeme bytes.now) found.1.now)) }
    ensures shorter { IfOk result (λ found. length found.1.now ≤ room_behind first.entry) }
{
    match first {
        First::Entity(token, rest) => {
            if is_thing(bytes, known, &token) {
                Ok((Class::Everything(token), rest))
            } else {
                Ok((Class::Only(Entity::Named(token)), rest))
            }
        }
        First::Group(head, token, inside) => {
            let rest = refused_end(bytes, known, head, &token, inside)?;
            Ok((Class::Only(Entity::Refused(token)), rest))
        }
    }
}

/// The class expression that the tokens begin with, where owl:Thing and qualified ones are taken.
#[tactic(auto, unfolding(crate::specs::Terms::class_first))]
pub(crate) fn class_first<'b>(
    bytes: &[u8],
    known: &Table,
    tokens: &'b [Token],
) -> Result<(Class, &'b [Token]), Stop>
    ensures given { Gives result (t.class_first known.now (map (lexeme bytes.now) tokens.now))
        (λ found. (class_seen bytes.now found.0, map (lexeme bytes.now) found.1.now)) }
    ensures shorter { IfOk result (λ found. length found.1.now < length tokens.now) }
{
    match term_first(bytes, tokens)? {
        First::Group(Head::ObjectSomeValuesFrom, token, inside) => {
            existing_from(bytes, known, &token, inside)
        }
        first => plain_class(bytes, known, first),
    }
}

fn narrowed(class: Class) -> Class
    ensures { (bytes : List ℕ) → class_seen bytes result ≡ t.narrowed (class_seen bytes class) }
{
    match class {
        Class::Everything(token) => Class::Only(Entity::Refused(token)),
        Class::SomeIn(token, _, _) => Class::Only(Entity::Refused(token)),
        class => class,
    }
}

/// The class expression that the tokens begin with, where owl:Thing and qualified ones aren't
/// taken.
#[tactic(auto, unfolding(crate::specs::Terms::basic_first))]
pub(crate) fn basic_first<'b>(
    bytes: &[u8],
    known: &Table,
    tokens: &'b [Token],
) -> Result<(Class, &'b [Token]), Stop>
    ensures given { Gives result (t.basic_first known.now (map (lexeme bytes.now) tokens.now))
        (λ found. (class_seen bytes.now found.0, map (lexeme bytes.now) found.1.now)) }
    ensures shorter { IfOk result (λ found. length found.1.now < length tokens.now) }
{
    let (class, rest) = class_first(bytes, known, tokens)?;
    Ok((narrowed(class), rest))
}
