//! The items of a document.

ghost use Rattle.std.specs.Prelude.{List, ℕ, ◌≡◌, ◌<◌, ◌≤◌, IfOk, IfSome, length, map};
ghost use Rattle.std.specs.Option.{option_map};
ghost use Rattle.owl_tokens.specs.Tokens.{lexeme};
ghost use Rattle.owl_documents.specs.Terms as t;
ghost use Rattle.owl_documents.specs.Items as i;
ghost use Rattle.owl_documents.specs.Views.{Gives, IsStop, first_seen, room_behind, entity_seen};
ghost use Rattle.owl_documents.specs.Views.{role_seen, class_seen};
ghost use Rattle.owl_documents.specs.ItemViews.{content_seen, axiom_seen, declaration_seen};
ghost use Rattle.owl_documents.specs.ItemViews.{item_seen};

use crate::groups::{Stop, close_first, group_end, group_of, is_close, is_word, open_first};
use crate::terms::{
    Class, Entity, First, Role, basic_first, class_first, entity_first, refused_end, role_first,
    term_first,
};
use dl_syntax::Kind;
use owl_tokens::{Head, Table, Token, head_of, is_thing, text_of};
use std::alloc::Global;

/// What an axiom holds.
#[derive(Clone, Copy, Debug, PartialEq, Eq)]
pub enum Shape {
    OneRole,
    TwoRoles,
    SeveralRoles,
    RoleAndClass,
    TwoClasses,
    SeveralClasses,
}

/// How the item that a word heads is written.
#[derive(Clone, Copy, Debug, PartialEq, Eq)]
pub enum ItemShape {
    Declares,
    Silent,
    States(Shape),
    NotTaken,
}

/// The roles and the class expressions of an axiom, in the order in which they are written.
#[derive(Debug, Drop)]
pub(crate) struct Content {
    pub roles: Vec<Role>,
    pub classes: Vec<Class>,
}

/// An axiom by the word that heads it, what it holds, and the place of its closing parenthesis.
#[derive(Debug, Drop)]
pub struct Axiom {
    pub form: Head,
    pub roles: Vec<Role>,
    pub classes: Vec<Class>,
    pub close: usize,
}

/// What a declaration holds.
#[derive(Clone, Copy, Debug)]
pub(crate) enum Declaration {
    OfEntity(Kind, Entity),
    OfAnnotations,
    OfRefused(Token),
}

/// An item of a document.
#[derive(Debug, Drop)]
pub enum Item {
    /// Says nothing.
    Silent,
    /// Isn't taken, for this token.
    NotTaken(Token),
    /// Declares an entity. The place is that of the closing parenthesis.
    Declares(Kind, Entity, usize),
    States(Axiom),
}

pub(crate) fn closes(tokens: &[Token]) -> bool
    ensures { (bytes : List ℕ) → result ≡ i.closes (map (lexeme bytes) tokens.now) }
{
    match tokens {
        [token, ..] => is_close(token.kind),
        [] => false,
    }
}

/// The roles up to a closing parenthesis.
fn roles_listed<'b>(
    alloc: Global,
    bytes: &[u8],
    known: &Table,
    tokens: &'b [Token],
) -> Result<(Vec<Role>, &'b [Token]), Stop>
    ensures given { Gives result (i.up_to_close (t.role_first known.now)
        (map (lexeme bytes.now) tokens.now)) (λ found.
        (map (role_seen bytes.now) found.0.items, map (lexeme bytes.now) found.1.now)) }
    ensures shorter { IfOk result (λ found. length found.1.now ≤ length tokens.now) }
{
    let mut roles = Vec::new(alloc);
    let mut rest = tokens;
    while !closes(rest) {
        match role_first(bytes, known, rest) {
            Ok((role, next)) => {
                roles.push(role)?;
                rest = next;
            }
            Err(stop) => return Err(stop),
        }
    }
    Ok((roles, rest))
}

/// The class expressions up to a closing parenthesis.
fn classes_listed<'b>(
    alloc: Global,
    bytes: &[u8],
    known: &Table,
    tokens: &'b [Token],
) -> Result<(Vec<Class>, &'b [Token]), Stop>
    ensures given { Gives result (i.up_to_close (t.basic_first known.now)
        (map (lexeme bytes.now) tokens.now)) (λ found.
        (map (class_seen bytes.now) found.0.items, map (lexeme bytes.now) found.1.now)) }
    ensures shorter { IfOk result (λ found. length found.1.now ≤ length tokens.now) }
{
    let mut classes = Vec::new(alloc);
    let mut rest = tokens;
    while !closes(rest) {
        match basic_first(bytes, known, rest) {
            Ok((class, next)) => {
                classes.push(class)?;
                rest = next;
            }
            Err(stop) => return Err(stop),
        }
    }
    Ok((classes, rest))
}

fn is_annotation(head: Head) -> bool
    ensures { result ≡ i.is_annotation head }
{
    matches!(head, Head::Annotation)
}

/// The tokens behind `Annotation(`.
fn annotation_first<'b>(bytes: &[u8], tokens: &'b [Token]) -> Option<&'b [Token]>
    ensures given { option_map (λ inside. map (lexeme bytes.now) inside.now) result
        ≡ i.annotation_first (map (lexeme bytes.now) tokens.now) }
    ensures shorter { IfSome result (λ inside. length inside.now < length tokens.now) }
{
    match tokens {
        [token, rest @ ..] => {
            if is_word(token.kind) && is_annotation(head_of(text_of(bytes, token))) {
                group_of(rest)
            } else {
                None
            }
        }
        [] => None,
    }
}

/// The tokens behind the annotations that they begin with.
fn behind_annotations<'b>(bytes: &[u8], tokens: &'b [Token]) -> Result<&'b [Token], Stop>
    ensures given { Gives result (i.behind_annotations (map (lexeme bytes.now) tokens.now)) (λ rest.
        map (lexeme bytes.now) rest.now) }
    ensures shorter { IfOk result (λ rest. length rest.now ≤ length tokens.now) }
{
    let mut rest = tokens;
    'groups: loop {
        match annotation_first(bytes, rest) {
            None => return Ok(rest),
            Some(inside) => match group_end(inside) {
                Ok(next) => rest = next,
                Err(stop) => return Err(stop),
            },
        }
    }
}

/// A role.
fn one_role<'b>(
    alloc: Global,
    bytes: &[u8],
    known: &Table,
    tokens: &'b [Token],
) -> Result<(Content, &'b [Token]), Stop>
    ensures given { Gives result (i.one_role known.now (map (lexeme bytes.now) tokens.now))
        (λ found. (content_seen bytes.now found.0, map (lexeme bytes.now) found.1.now)) }
    ensures shorter { IfOk result (λ found. length found.1.now ≤ length tokens.now) }
{
    let (role, rest) = role_first(bytes, known, tokens)?;
    let roles = Vec::from_array(alloc, [role])?;
    let classes = Vec::new(alloc);
    Ok((Content { roles, classes }, rest))
}

/// Two roles.
fn two_roles<'b>(
    alloc: Global,
    bytes: &[u8],
    known: &Table,
    tokens: &'b [Token],
) -> Result<(Content, &'b [Token]), Stop>
    ensures given { Gives result (i.two_roles known.now (map (lexeme bytes.now) tokens.now))
        (λ found. (content_seen bytes.now found.0, map (lexeme bytes.now) found.1.now)) }
    ensures shorter { IfOk result (λ found. length found.1.now ≤ length tokens.now) }
{
    let (left, rest) = role_first(bytes, known, tokens)?;
    let (right, rest) = role_first(bytes, known, rest)?;
    let roles = Vec::from_array(alloc, [left, right])?;
    let classes = Vec::new(alloc);
    Ok((Content { roles, classes }, rest))
}

/// The fault at the first of the tokens.
fn stop_at(tokens: &[Token]) -> Stop
    ensures { (bytes : List ℕ) → IsStop result (map (lexeme bytes) tokens.now) }
{
    match tokens {
        [token, ..] => Stop::At(token.start),
        [] => Stop::End,
    }
}

/// Two roles or more.
fn several_roles<'b>(
    alloc: Global,
    bytes: &[u8],
    known: &Table,
    tokens: &'b [Token],
) -> Result<(Content, &'b [Token]), Stop>
    ensures given { Gives result (i.several_roles known.now (map (lexeme bytes.now) tokens.now))
        (λ found. (content_seen bytes.now found.0, map (lexeme bytes.now) found.1.now)) }
    ensures shorter { IfOk result (λ found. length found.1.now ≤ length tokens.now) }
{
    let (roles, rest) = roles_listed(alloc, bytes, known, tokens)?;
    if roles.len() < 2 {
        return Err(stop_at(rest));
    }
    let classes = Vec::new(alloc);
    Ok((Content { roles, classes }, rest))
}

/// A role and a class expression.
fn role_and_class<'b>(
    alloc: Global,
    bytes: &[u8],
    known: &Table,
    tokens: &'b [Token],
) -> Result<(Content, &'b [Token]), Stop>
    ensures given { Gives result (i.role_and_class known.now (map (lexeme bytes.now) tokens.now))
        (λ found. (content_seen bytes.now found.0, map (lexeme bytes.now) found.1.now)) }
    ensures shorter { IfOk result (λ found. length found.1.now ≤ length tokens.now) }
{
    let (role, rest) = role_first(bytes, known, tokens)?;
    let (class, rest) = class_first(bytes, known, rest)?;
    let roles = Vec::from_array(alloc, [role])?;
    let classes = Vec::from_array(alloc, [class])?;
    Ok((Content { roles, classes }, rest))
}

/// Two class expressions.
fn two_classes<'b>(
    alloc: Global,
    bytes: &[u8],
    known: &Table,
    tokens: &'b [Token],
) -> Result<(Content, &'b [Token]), Stop>
    ensures given { Gives result (i.two_classes known.now (map (lexeme bytes.now) tokens.now))
        (λ found. (content_seen bytes.now found.0, map (lexeme bytes.now) found.1.now)) }
    ensures shorter { IfOk result (λ found. length found.1.now ≤ length tokens.now) }
{
    let (left, rest) = basic_first(bytes, known, tokens)?;
    let (right, rest) = class_first(bytes, known, rest)?;
    let roles = Vec::new(alloc);
    let classes = Vec::from_array(alloc, [left, right])?;
    Ok((Content { roles, classes }, rest))
}

/// Two class expressions or more.
fn several_classes<'b>(
    alloc: Global,
    bytes: &[u8],
    known: &Table,
    tokens: &'b [Token],
) -> Result<(Content, &'b [Token]), Stop>
    ensures given { Gives result (i.several_classes known.now (map (lexeme bytes.now) tokens.now))
        (λ found. (content_seen bytes.now found.0, map (lexeme bytes.now) found.1.now)) }
    ensures shorter { IfOk result (λ found. length found.1.now ≤ length tokens.now) }
{
    let (classes, rest) = classes_listed(alloc, bytes, known, tokens)?;
    if classes.len() < 2 {
        return Err(stop_at(rest));
    }
    let roles = Vec::new(alloc);
    Ok((Content { roles, classes }, rest))
}

/// What an axiom of the shape holds.
fn content_first<'b>(
    alloc: Global,
    bytes: &[u8],
    known: &Table,
    shape: Shape,
    tokens: &'b [Token],
) -> Result<(Content, &'b [Token]), Stop>
    ensures given { Gives result (i.content_first known.now shape
        (map (lexeme bytes.now) tokens.now)) (λ found.
        (content_seen bytes.now found.0, map (lexeme bytes.now) found.1.now)) }
    ensures shorter { IfOk result (λ found. length found.1.now ≤ length tokens.now) }
{
    match shape {
        Shape::OneRole => one_role(alloc, bytes, known, tokens),
        Shape::TwoRoles => two_roles(alloc, bytes, known, tokens),
        Shape::SeveralRoles => several_roles(alloc, bytes, known, tokens),
        Shape::RoleAndClass => role_and_class(alloc, bytes, known, tokens),
        Shape::TwoClasses => two_classes(alloc, bytes, known, tokens),
        Shape::SeveralClasses => several_classes(alloc, bytes, known, tokens),
    }
}

/// The item that a declaration is, by the place of its closing parenthesis.
fn declared_item(held: Declaration, close: usize) -> Item
    ensures { (bytes : List ℕ) → item_seen bytes result
        ≡ i.declared_item (declaration_seen bytes held) close }
{
    match held {
        Declaration::OfEntity(kind, entity) => Item::Declares(kind, entity, close),
        Declaration::OfAnnotations => Item::Silent,
        Declaration::OfRefused(token) => Item::NotTaken(token),
    }
}

/// An entity in a declaration, behind the opening parenthesis before it.
fn entity_declared<'b>(
    bytes: &[u8],
    known: &Table,
    kind: Kind,
    inside: &'b [Token],
) -> Result<(Declaration, &'b [Token]), Stop>
    ensures given { Gives result (i.entity_declared known.now kind
        (map (lexeme bytes.now) inside.now)) (λ found.
        (declaration_seen bytes.now found.0, map (lexeme bytes.now) found.1.now)) }
    ensures shorter { IfOk result (λ found. length found.1.now ≤ length inside.now) }
{
    let (entity, rest) = entity_first(bytes, known, inside)?;
    let (_, rest) = close_first(rest)?;
    Ok((Declaration::OfEntity(kind, entity), rest))
}

/// What a declaration holds, by what it begins with.
fn declaration_from<'b>(
    bytes: &[u8],
    known: &Table,
    first: First<'b>,
) -> Result<(Declaration, &'b [Token]), Stop>
    ensures given { Gives result (i.declaration_from known.now (first_seen bytes.now first.entry))
        (λ found. (declaration_seen bytes.now found.0, map (lexeme bytes.now) found.1.now)) }
    ensures shorter { IfOk result (λ found. length found.1.now ≤ room_behind first.entry) }
{
    match first {
        First::Entity(token, rest) => {
            if is_thing(bytes, known, &token) {
                Ok((Declaration::OfRefused(token), rest))
            } else {
                Err(Stop::At(token.start))
            }
        }
        First::Group(Head::Class, _, inside) => {
            entity_declared(bytes, known, Kind::Concept, inside)
        }
        First::Group(Head::ObjectProperty, _, inside) => {
            entity_declared(bytes, known, Kind::Role, inside)
        }
        First::Group(Head::NamedIndividual, _, inside) => {
            entity_declared(bytes, known, Kind::Individual, inside)
        }
        First::Group(Head::AnnotationProperty, _, inside) => {
            let rest = group_end(inside)?;
            Ok((Declaration::OfAnnotations, rest))
        }
        First::Group(head, token, inside) => {
            let rest = refused_end(bytes, known, head, &token, inside)?;
            Ok((Declaration::OfRefused(token), rest))
        }
    }
}

/// A declaration behind its opening parenthesis.
#[tactic(auto, unfolding(crate::specs::Items::declaration_item))]
fn declaration_item<'b>(
    bytes: &[u8],
    known: &Table,
    inside: &'b [Token],
) -> Result<(Item, &'b [Token]), Stop>
    ensures given { Gives result (i.declaration_item known.now (map (lexeme bytes.now) inside.now))
        (λ found. (item_seen bytes.now found.0, map (lexeme bytes.now) found.1.now)) }
    ensures shorter { IfOk result (λ found. length found.1.now ≤ length inside.now) }
{
    let tokens = behind_annotations(bytes, inside)?;
    let first = term_first(bytes, tokens)?;
    let (held, rest) = declaration_from(bytes, known, first)?;
    let (close, rest) = close_first(rest)?;
    Ok((declared_item(held, close), rest))
}

/// An axiom behind its opening parenthesis.
#[tactic(auto, unfolding(crate::specs::Items::axiom_item))]
fn axiom_item<'b>(
    alloc: Global,
    bytes: &[u8],
    known: &Table,
    head: Head,
    shape: Shape,
    inside: &'b [Token],
) -> Result<(Item, &'b [Token]), Stop>
    ensures given { Gives result (i.axiom_item known.now head shape
        (map (lexeme bytes.now) inside.now)) (λ found.
        (item_seen bytes.now found.0, map (lexeme bytes.now) found.1.now)) }
    ensures shorter { IfOk result (λ found. length found.1.now ≤ length inside.now) }
{
    let tokens = behind_annotations(bytes, inside)?;
    let (content, rest) = content_first(alloc, bytes, known, shape, tokens)?;
    let (close, rest) = close_first(rest)?;
    let axiom = Axiom {
        form: head,
        roles: content.roles,
        classes: content.classes,
        close,
    };
    Ok((Item::States(axiom), rest))
}

/// How the item that a word heads is written.
fn shape_of(head: Head) -> ItemShape
    ensures { result ≡ i.shape_of head }
{
    match head {
        Head::Declaration => ItemShape::Declares,
        Head::Annotation
        | Head::AnnotationAssertion
        | Head::SubAnnotationPropertyOf
        | Head::AnnotationPropertyDomain
        | Head::AnnotationPropertyRange => ItemShape::Silent,
        Head::SubClassOf => ItemShape::States(Shape::TwoClasses),
        Head::EquivalentClasses | Head::DisjointClasses => {
            ItemShape::States(Shape::SeveralClasses)
        }
        Head::SubObjectPropertyOf | Head::InverseObjectProperties => {
            ItemShape::States(Shape::TwoRoles)
        }
        Head::EquivalentObjectProperties | Head::DisjointObjectProperties => {
            ItemShape::States(Shape::SeveralRoles)
        }
        Head::SymmetricObjectProperty | Head::AsymmetricObjectProperty => {
            ItemShape::States(Shape::OneRole)
        }
        Head::ObjectPropertyDomain | Head::ObjectPropertyRange => {
            ItemShape::States(Shape::RoleAndClass)
        }
        _ => ItemShape::NotTaken,
    }
}

/// The item that a word heads, behind its opening parenthesis.
fn item_from<'b>(
    alloc: Global,
    bytes: &[u8],
    known: &Table,
    token: &Token,
    inside: &'b [Token],
) -> Result<(Item, &'b [Token]), Stop>
    ensures given { Gives result (i.item_headed known.now (lexeme bytes.now token.now)
        (map (lexeme bytes.now) inside.now)) (λ found.
        (item_seen bytes.now found.0, map (lexeme bytes.now) found.1.now)) }
    ensures shorter { IfOk result (λ found. length found.1.now ≤ length inside.now) }
{
    let head = head_of(text_of(bytes, token));
    match shape_of(head) {
        ItemShape::Declares => declaration_item(bytes, known, inside),
        ItemShape::Silent => {
            let rest = group_end(inside)?;
            Ok((Item::Silent, rest))
        }
        ItemShape::States(shape) => axiom_item(alloc, bytes, known, head, shape, inside),
        ItemShape::NotTaken => {
            let rest = group_end(inside)?;
            Ok((Item::NotTaken(*token), rest))
        }
    }
}

/// The item that the tokens begin with.
#[tactic(auto, unfolding(crate::specs::Items::item_first))]
pub(crate) fn item_first<'b>(
    alloc: Global,
    bytes: &[u8],
    known: &Table,
    tokens: &'b [Token],
) -> Result<(Item, &'b [Token]), Stop>
    ensures given { Gives result (i.item_first known.now (map (lexeme bytes.now) tokens.now))
        (λ found. (item_seen bytes.now found.0, map (lexeme bytes.now) found.1.now)) }
    ensures shorter { IfOk result (λ found. length found.1.now < length tokens.now) }
{
    match tokens {
        [] => Err(Stop::End),
        [token, rest @ ..] => {
            if !is_word(token.kind) {
                return Err(Stop::At(token.start));
            }
            let inside = open_first(rest)?;
            item_from(alloc, bytes, known, token, inside)
        }
    }
}
