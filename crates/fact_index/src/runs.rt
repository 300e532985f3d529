//! Runs of facts in ordered slices.

ghost use Rattle.std.specs.Prelude.{◌≡◌, not};
ghost use Rattle.std.specs.List.{filter};
ghost use Rattle.std.specs.Ordering.{is_lt};
ghost use Rattle.std.specs.List.Sorted.{IsStrictlySortedBy, IsSortedByKey};
ghost use Rattle.fact_index.specs.Order.{fact_cmp, last_cmp, element_cmp, element_eq, first_of};
ghost use Rattle.fact_index.specs.Order.{last_of, is_of_concept, is_of_role, turned_of};
ghost use Rattle.fact_index.specs.Index.{is_role, is_before_concept, is_before_role};

use crate::places::{first, last};
use dl_syntax::{ConceptId, Element, Fact, RoleId};

// What comes before the facts of a concept.
fn is_before_concept(fact: &Fact, id: ConceptId) -> bool
    ensures { result ≡ is_before_concept id fact.now }
{
    match fact {
        Fact::Concept(concept, _) => concept.0 < id.0,
        Fact::Role(_, _, _) => false,
    }
}

// What comes before the facts of a role.
fn is_before_role(fact: &Fact, id: RoleId) -> bool
    ensures { result ≡ is_before_role id fact.now }
{
    match fact {
        Fact::Concept(_, _) => true,
        Fact::Role(role, _, _) => role.0 < id.0,
    }
}

fn is_of_concept(fact: &Fact, id: ConceptId) -> bool
    ensures { result ≡ is_of_concept id fact.now }
{
    match fact {
        Fact::Concept(concept, _) => concept.0 == id.0,
        Fact::Role(_, _, _) => false,
    }
}

fn is_of_role(fact: &Fact, id: RoleId) -> bool
    ensures { result ≡ is_of_role id fact.now }
{
    match fact {
        Fact::Concept(_, _) => false,
        Fact::Role(role, _, _) => role.0 == id.0,
    }
}

fn is_concept(fact: &Fact) -> bool
    ensures { result ≡ not (is_role fact.now) }
{
    match fact {
        Fact::Concept(_, _) => true,
        Fact::Role(_, _, _) => false,
    }
}

/// The fact with the places of a role exchanged.
pub fn turned(fact: &Fact) -> Fact
    ensures { result ≡ turned_of fact.now }
{
    match *fact {
        Fact::Concept(id, element) => Fact::Concept(id, element),
        Fact::Role(id, first, second) => Fact::Role(id, second, first),
    }
}

/// The role facts, which come last.
pub fn roles(facts: &[Fact]) -> &[Fact]
    requires { IsStrictlySortedBy fact_cmp facts.now }
    ensures { result.now ≡ filter is_role facts.now }
{
    &facts[facts.partition_point(|fact| is_concept(fact))..]
}

/// The facts of a concept.
pub fn concept_run(facts: &[Fact], id: ConceptId) -> &[Fact]
    requires { IsStrictlySortedBy fact_cmp facts.now }
    ensures facts { result.now ≡ filter (is_of_concept id) facts.now }
    ensures ordered { IsSortedByKey first_of element_cmp result.now }
    ensures rising { IsStrictlySortedBy fact_cmp result.now }
{
    let start = facts.partition_point(|fact| is_before_concept(fact, id));
    let rest = &facts[start..];
    let count = rest.partition_point(|fact| is_of_concept(fact, id));
    &rest[..count]
}

/// The facts of a role.
pub fn role_run(facts: &[Fact], id: RoleId) -> &[Fact]
    requires { IsStrictlySortedBy fact_cmp facts.now }
    ensures facts { result.now ≡ filter (is_of_role id) facts.now }
    ensures ordered { IsSortedByKey first_of element_cmp result.now }
    ensures rising { IsStrictlySortedBy fact_cmp result.now }
{
    let start = facts.partition_point(|fact| is_before_role(fact, id));
    let rest = &facts[start..];
    let count = rest.partition_point(|fact| is_of_role(fact, id));
    &rest[..count]
}

/// The facts of a role, by the last place.
pub fn role_run_by_last(facts: &[Fact], id: RoleId) -> &[Fact]
    requires { IsStrictlySortedBy last_cmp facts.now }
    ensures facts { result.now ≡ filter (is_of_role id) facts.now }
    ensures ordered { IsSortedByKey last_of element_cmp result.now }
    ensures rising { IsStrictlySortedBy last_cmp result.now }
{
    let start = facts.partition_point(|fact| is_before_role(fact, id));
    let rest = &facts[start..];
    let count = rest.partition_point(|fact| is_of_role(fact, id));
    &rest[..count]
}

fn is_before_first(fact: &Fact, element: Element) -> bool
    ensures { result ≡ is_lt (element_cmp (first_of fact.now) element) }
{
    first(fact).cmp(&element).is_lt()
}

fn has_first(fact: &Fact, element: Element) -> bool
    ensures { result ≡ element_eq (first_of fact.now) element }
{
    first(fact).cmp(&element).is_eq()
}

fn is_before_last(fact: &Fact, element: Element) -> bool
    ensures { result ≡ is_lt (element_cmp (last_of fact.now) element) }
{
    last(fact).cmp(&element).is_lt()
}

fn has_last(fact: &Fact, element: Element) -> bool
    ensures { result ≡ element_eq (last_of fact.now) element }
{
    last(fact).cmp(&element).is_eq()
}

/// Those of the facts, which are ordered by the first place, that have the element there. Takes no
/// memory.
pub fn with_first(facts: &[Fact], element: Element) -> &[Fact]
    requires { IsSortedByKey first_of element_cmp facts.now }
    ensures { result.now ≡ filter (λ f. element_eq (first_of f) element) facts.now }
{
    let start = facts.partition_point(|fact| is_before_first(fact, element));
    let rest = &facts[start..];
    let count = rest.partition_point(|fact| has_first(fact, element));
    &rest[..count]
}

/// Those of the facts, which are ordered by the last place, that have the element there. Takes no
/// memory.
pub fn with_last(facts: &[Fact], element: Element) -> &[Fact]
    requires { IsSortedByKey last_of element_cmp facts.now }
    ensures { result.now ≡ filter (λ f. element_eq (last_of f) element) facts.now }
{
    let start = facts.partition_point(|fact| is_before_last(fact, element));
    let rest = &facts[start..];
    let count = rest.partition_point(|fact| has_last(fact, element));
    &rest[..count]
}
