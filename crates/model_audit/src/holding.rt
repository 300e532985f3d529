//! Look-ups in the index of a list of facts. None takes memory.
ghost use Rattle.std.specs.Prelude.{◌↔◌, IsTrue, Contains};
ghost use Rattle.std.specs.List.{Any};
ghost use Rattle.dl_syntax.specs.declared.facts.Element.{Element as ElementValue};
ghost use Rattle.dl_syntax.specs.declared.facts.Fact.{Fact as FactValue};
ghost use Rattle.dl_syntax.specs.Facts.{In, Pair};
ghost use Rattle.model_audit.specs.FiniteModels.{IsMember, HasPartner, ShowsPartner, ShowsMember};

use dl_syntax::{Basic, ConceptId, Element, Fact, Role, element_in, pair_in, role_fact};
use fact_index::{Index, with_first, with_last};

/// The facts that make a pair of the role.
pub fn pairs_of<'a>(index: &'a Index, role: &Role) -> &'a [Fact]
    ensures { (f : FactValue) → Contains result.now f
        ↔ (Contains index.now f × ((e other : ElementValue) × Pair role.now e other f)) }
{
    index.role(role.id, role.inverse)
}

/// The facts that put an element into the basic concept.
pub fn members_of<'a>(index: &'a Index, basic: &Basic) -> &'a [Fact]
    ensures { (f : FactValue) → Contains result.now f
        ↔ (Contains index.now f × ((e : ElementValue) × In basic.now e f)) }
{
    match basic {
        Basic::Concept(id) => index.concept(*id),
        Basic::Some(role) => pairs_of(index, role),
    }
}

/// Whether both facts put one element into the basic concept.
pub fn is_same_member(basic: &Basic, one: &Fact, other: &Fact) -> bool
    ensures { IsTrue result
        → (e : ElementValue) × In basic.now e one.now × In basic.now e other.now }
{
    match (element_in(basic, one), element_in(basic, other)) {
        (Some(first), Some(second)) => first == second,
        _ => false,
    }
}

/// The facts that make the element the first of a pair of the role.
fn partners<'a>(index: &'a Index, role: &Role, element: Element) -> &'a [Fact]
    ensures { (f : FactValue) → Contains result.now f
        ↔ (Contains index.now f × ((e : ElementValue) × Pair role.now element e f)) }
{
    if role.inverse {
        with_last(index.role(role.id, true), element)
    } else {
        with_first(index.role(role.id, false), element)
    }
}

/// Whether some fact puts the element into the basic concept.
pub fn is_member(index: &Index, basic: &Basic, element: Element) -> bool
    ensures { IsTrue result ↔ IsMember index.now basic.now element }
{
    match basic {
        Basic::Concept(id) => index.has(&Fact::Concept(*id, element)),
        Basic::Some(role) => !partners(index, role, element).is_empty(),
    }
}

/// Whether the fact makes a pair of the role whose second element is in the concept.
fn shows_partner(index: &Index, role: &Role, concept: ConceptId, fact: &Fact) -> bool
    ensures { IsTrue result ↔ ShowsPartner index.now role.now concept fact.now }
{
    match pair_in(role, fact) {
        Some((_, second)) => index.has(&Fact::Concept(concept, second)),
        None => false,
    }
}

/// Whether one of the facts does.
fn one_shows_partner(index: &Index, role: &Role, concept: ConceptId, facts: &[Fact]) -> bool
    ensures { IsTrue result ↔ Any (ShowsPartner index.now role.now concept) facts.now }
{
    facts
        .iter()
        .any(|fact| shows_partner(index, role, concept, fact))
}

/// Whether the fact puts an element into the concept with which this one has a pair of the role.
fn shows_member(
    index: &Index,
    role: &Role,
    concept: ConceptId,
    element: Element,
    fact: &Fact,
) -> bool
    ensures { IsTrue result ↔ ShowsMember index.now role.now concept element fact.now }
{
    match element_in(&Basic::Concept(concept), fact) {
        Some(second) => index.has(&role_fact(role, element, second)),
        None => false,
    }
}

/// Whether one of the facts does.
fn one_shows_member(
    index: &Index,
    role: &Role,
    concept: ConceptId,
    element: Element,
    facts: &[Fact],
) -> bool
    ensures { IsTrue result ↔ Any (ShowsMember index.now role.now concept element) facts.now }
{
    facts
        .iter()
        .any(|fact| shows_member(index, role, concept, element, fact))
}

/// Whether some element has the pair with this one and is in the concept: the partners or the
/// concept's members are looked at, whichever are fewer.
pub fn has_partner(index: &Index, role: &Role, concept: ConceptId, element: Element) -> bool
    ensures { IsTrue result ↔ HasPartner index.now role.now concept element }
{
    let partners = partners(index, role, element);
    let members = index.concept(concept);
    if partners.len() <= members.len() {
        one_shows_partner(index, role, concept, partners)
    } else {
        one_shows_member(index, role, concept, element, members)
    }
}
