//! The first token that is not taken.

ghost use Rattle.std.specs.Prelude.{List, ℕ, ◌≡◌, map};
ghost use Rattle.std.specs.Option.{option_map};
ghost use Rattle.owl_tokens.specs.Tokens.{lexeme};
ghost use Rattle.owl_reader.specs.Refusals as refusals;
ghost use Rattle.owl_documents.specs.Views.{entity_seen, role_seen, class_seen};
ghost use Rattle.owl_documents.specs.ItemViews.{axiom_seen, item_seen};

use owl_documents::{Axiom, Class, Entity, Item, Role};
use owl_tokens::Token;

fn or_else(first: Option<Token>, later: Option<Token>) -> Option<Token>
    ensures { (bytes : List ℕ) → option_map (lexeme bytes) result
        ≡ refusals.or_else (option_map (lexeme bytes) first) (option_map (lexeme bytes) later) }
{
    match first {
        Some(token) => Some(token),
        None => later,
    }
}

fn in_entity(entity: &Entity) -> Option<Token>
    ensures { (bytes : List ℕ) → option_map (lexeme bytes) result
        ≡ refusals.in_entity (entity_seen bytes entity.now) }
{
    match entity {
        Entity::Named(_) => None,
        Entity::Refused(token) => Some(*token),
    }
}

fn in_role(role: &Role) -> Option<Token>
    ensures { (bytes : List ℕ) → option_map (lexeme bytes) result
        ≡ refusals.in_role (role_seen bytes role.now) }
{
    in_entity(&role.entity)
}

fn in_class(class: &Class) -> Option<Token>
    ensures { (bytes : List ℕ) → option_map (lexeme bytes) result
        ≡ refusals.in_class (class_seen bytes class.now) }
{
    match class {
        Class::Everything(_) => None,
        Class::Only(entity) => in_entity(entity),
        Class::SomeOf(role) => in_role(role),
        Class::SomeIn(_, role, entity) => or_else(in_role(role), in_entity(entity)),
    }
}

/// The first token in the roles that isn't taken.
fn in_roles(roles: &[Role]) -> Option<Token>
    ensures { (bytes : List ℕ) → option_map (lexeme bytes) result
        ≡ refusals.first_of refusals.in_role (map (role_seen bytes) roles.now) }
{
    let mut place = 0;
    while place < roles.len() {
        let found = in_role(&roles[place]);
        if found.is_some() {
            return found;
        }
        place += 1;
    }
    None
}

/// The first token in the class expressions that isn't taken.
fn in_classes(classes: &[Class]) -> Option<Token>
    ensures { (bytes : List ℕ) → option_map (lexeme bytes) result
        ≡ refusals.first_of refusals.in_class (map (class_seen bytes) classes.now) }
{
    let mut place = 0;
    while place < classes.len() {
        let found = in_class(&classes[place]);
        if found.is_some() {
            return found;
        }
        place += 1;
    }
    None
}

fn in_axiom(axiom: &Axiom) -> Option<Token>
    ensures { (bytes : List ℕ) → option_map (lexeme bytes) result
        ≡ refusals.in_axiom (axiom_seen bytes axiom.now) }
{
    or_else(
        in_roles(axiom.roles.as_slice()),
        in_classes(axiom.classes.as_slice()),
    )
}

fn in_item(item: &Item) -> Option<Token>
    ensures { (bytes : List ℕ) → option_map (lexeme bytes) result
        ≡ refusals.in_item (item_seen bytes item.now) }
{
    match item {
        Item::Silent => None,
        Item::NotTaken(token) => Some(*token),
        Item::Declares(_, entity, _) => in_entity(entity),
        Item::States(axiom) => in_axiom(axiom),
    }
}

/// The first token that isn't taken.
pub(crate) fn first_refused(items: &[Item]) -> Option<Token>
    ensures { (bytes : List ℕ) → option_map (lexeme bytes) result
        ≡ refusals.first_of refusals.in_item (map (item_seen bytes) items.now) }
{
    let mut place = 0;
    while place < items.len() {
        let found = in_item(&items[place]);
        if found.is_some() {
            return found;
        }
        place += 1;
    }
    None
}
